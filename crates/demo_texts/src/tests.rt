use crate::{MAX_BITS, ripple_text, select_text};
use netlist::{read_specification, same_interface};
use std::test::Fail;

/// Both designs of one bit, which differ in their names alone.
const ONE_BIT: &str = "\
.inputs a0 b0
.outputs s0 cout
.names a0 b0 s0
10 1
01 1
.names a0 b0 k0
11 1
.names k0 cout
1 1
.end
";

#[test]
fn texts_of_one_bit_are_these(rt: HostRuntime) -> Result<(), Fail> {
    let text = ripple_text(rt.alloc(), 1)?;
    assert!(rt; text.starts_with(b".model ripple\n") && text.ends_with(ONE_BIT.as_bytes()));
    let text = select_text(rt.alloc(), 1)?;
    assert!(rt; text.starts_with(b".model select\n") && text.ends_with(ONE_BIT.as_bytes()));
    Ok(())
}

#[test]
fn texts_of_all_sizes_are_networks_with_one_interface(rt: HostRuntime) -> Result<(), Fail> {
    let alloc = rt.alloc();
    for bits in 1..=MAX_BITS {
        let ripple = read_specification(alloc, &ripple_text(alloc, bits)?)?;
        let select = read_specification(alloc, &select_text(alloc, bits)?)?;
        assert!(rt; ripple.inputs() == 2 * bits && ripple.outputs() == bits + 1);
        assert!(rt; same_interface(alloc, &ripple, &select).is_ok());
    }
    Ok(())
}
