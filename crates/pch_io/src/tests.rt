use super::*;
use pch_base::Name;
use std::alloc::{AllocError, Global};
use std::fs;
use std::test::Fail;

/// A list with one file, `c`, that has the bytes `abc`.
fn one_file(alloc: Global) -> Result<Vec<(Name, Vec<u8>)>, AllocError> {
    let Ok(name) = Name::from_bytes(alloc, b"c") else {
        return Err(AllocError);
    };
    Ok(vec![in alloc; (name, b"abc".to_vec(alloc)?)]?)
}

#[test]
fn a_store_fails_at_its_third_load(rt: HostRuntime) -> Result<(), Fail> {
    let alloc = rt.alloc();
    let mut store = MemStore::new(alloc, one_file(alloc)?, vec![in alloc; 3]?)?;
    let loaded = store.load(alloc, "c", 3)?;
    assert_eq!(rt; loaded.as_slice(), b"abc".as_slice());
    assert_eq!(rt; store.load(alloc, "c", 2).err(), Some(LoadFail::TooLong));
    assert_eq!(rt; store.load(alloc, "c", 3).err(), Some(LoadFail::Failed));
    let again = store.load(alloc, "c", 3)?;
    assert_eq!(rt; again.as_slice(), b"abc".as_slice());
    Ok(())
}

#[test]
fn store_in_memory_saves(rt: HostRuntime) -> Result<(), Fail> {
    let alloc = rt.alloc();
    let mut store = MemStore::new(alloc, one_file(alloc)?, Vec::new(alloc))?;
    store.save("d", b"xy")?;
    store.save("c", b"z")?;
    assert!(rt; store.file("d") == Some(b"xy".as_slice()));
    assert!(rt; store.file("c") == Some(b"z".as_slice()));
    assert!(rt; store.file("e").is_none());
    Ok(())
}

#[test]
fn store_without_faults_loads_and_saves(rt: HostRuntime) -> Result<(), Fail> {
    let alloc = rt.alloc();
    let mut store = NoFaultStore::new(alloc, one_file(alloc)?)?;
    store.save("d", b"d")?;
    let loaded = store.load(alloc, "c", 9)?;
    assert_eq!(rt; loaded.as_slice(), b"abc".as_slice());
    assert!(rt; store.file("d") == Some(b"d".as_slice()));
    Ok(())
}

#[test]
fn a_sink_fails_at_its_second_put(rt: HostRuntime) -> Result<(), Fail> {
    let alloc = rt.alloc();
    let mut sink = MemSink::new(alloc, vec![in alloc; 2]?);
    sink.put(b"ab")?;
    assert!(rt; sink.put(b"cd") == Err(PutFail::Failed));
    sink.put(b"e")?;
    assert!(rt; sink.bytes() == b"abe".as_slice());
    Ok(())
}

#[test]
fn real_files_are_loaded_and_saved(rt: HostRuntime) -> Result<(), Fail> {
    let alloc = rt.alloc();
    let mut store = FileStore::new(&rt);
    store.save("pch_io_test", b"some bytes")?;
    let loaded = store.load(alloc, "pch_io_test", 10)?;
    assert_eq!(rt; loaded.as_slice(), b"some bytes".as_slice());
    assert!(rt; store.load(alloc, "pch_io_test", 9).err() == Some(LoadFail::TooLong));
    fs::remove_file(&rt, "pch_io_test")?;
    Ok(())
}

#[test]
fn real_faults_are_named(rt: HostRuntime) -> Result<(), Fail> {
    let alloc = rt.alloc();
    let mut store = FileStore::new(&rt);
    assert!(rt; store.load(alloc, "pch_io_absent", 10).err() == Some(LoadFail::Absent));
    assert!(rt; store.load(alloc, ".", 10).err() == Some(LoadFail::Failed));
    assert!(rt; store.save(".", b"") == Err(SaveFail::Failed));
    let mut out = OutSink::new(&rt);
    out.put(b"")?;
    Ok(())
}

/// The point of a turn of lane 0 before it is answered.
fn passed(turn: u32) -> Point {
    Point {
        kind: PointKind::Pass,
        lane: 0,
        turn,
    }
}

#[test]
fn a_gate_holds_until_a_point_was_reached(rt: HostRuntime) -> Result<(), Fail> {
    let alloc = rt.alloc();
    let hold = Hold {
        at: passed(1),
        until: passed(0),
    };
    let gate = HoldGate::new(alloc, vec![in alloc; hold]?)?;
    gate.pass(&rt, 0, 0);
    gate.pass(&rt, 0, 1);
    assert!(rt; !gate.gave_up());
    let gate = HoldGate::new(alloc, vec![in alloc; hold]?)?;
    gate.pass(&rt, 0, 1);
    assert!(rt; gate.gave_up());
    Ok(())
}
