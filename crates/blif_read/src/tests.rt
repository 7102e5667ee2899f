use super::*;
use std::test::Fail;

/// Two inverters, with a comment, a joined line and a line end of two bytes.
const TEXT: &[u8] =
    b".model m # two\n.inputs a \\\n b\r\n.outputs y z\n.names a y\n0 1\n.names b z\n1 0\n";

#[test]
fn a_design_is_read_and_printed(rt: HostRuntime) -> Result<(), Fail> {
    let alloc = rt.alloc();
    let printed = print_blif(alloc, &read_blif(alloc, TEXT)?)
        .ok()
        .ok_or("memory")?;
    let want = b".model m\n.inputs a b\n.outputs y z\n.names a y\n0 1\n.names b z\n1 0\n.end\n";
    assert_eq!(rt; printed.as_slice(), want.as_slice());
    Ok(())
}
