use super::*;
use pch_base::Name;
use pch_io::{LoadFail, MemStore};
use run_actors::Loaded;
use std::alloc::{AllocError, Global};
use std::test::Fail;

const SCRIPT: &[u8] = b"fabric 1 1 1 1 1\nslots 1\nlimit 1\nworkers 1\nlane\nagree 0 a\n\
deliver 0 a\ndeliver 0 b\n";

const SPEC: &[u8] = b".inputs a\n.outputs y\n.names a y\n0 1\n.end\n";

/// A store with a script `s` and the files `a` and `b`, of which the call with this number fails.
fn store(alloc: Global, failing: u32) -> Result<MemStore, AllocError> {
    let mut files = Vec::new(alloc);
    for (name, bytes) in [("s", SCRIPT), ("a", SPEC), ("b", SPEC)] {
        let Ok(name) = Name::from_bytes(alloc, name.as_bytes()) else {
            return Err(AllocError);
        };
        files.push((name, bytes.to_vec(alloc)?))?;
    }
    MemStore::new(alloc, files, vec![in alloc; failing]?).map_err(|_| AllocError)
}

#[test]
fn files_are_loaded_in_order(rt: HostRuntime) -> Result<(), Fail> {
    let alloc = rt.alloc();
    let mut store = store(alloc, 7)?;
    let script = load_script(alloc, &mut store, "s")?;
    let uses = script.files.as_slice();
    let files = load_files(alloc, &mut store, uses)?;
    assert_eq!(rt; files.len(), 3);
    assert!(rt; matches!(&files[0], Loaded::Spec(_)));
    assert!(rt; matches!(&files[1], Loaded::Bundle(bytes) if bytes.as_slice() == SPEC));
    let fault = load_files(alloc, &mut store, uses).err();
    assert!(rt;
        matches!(
            fault,
            Some(NotUsable {
                file: 2,
                fault: FileFault::Load(LoadFail::Failed)
            })
        )
    );
    Ok(())
}
