use crate::{print_config, read_config};
use fabric::{Geometry, Wires, eval};
use pch_base::Bits;
use std::alloc::Global;
use std::process::Abort;
use std::test::Fail;

/// One cell that negates the one input pad.
const INVERTER: [u8; 16] = [
    0x00, 0x01, 0x00, 0x01, 0x00, 0x00, 0x00, 0x00, 0x00, 0x00, 0x55, 0x55, 0x00, 0x02, 0x00, 0x01,
];

#[test]
fn an_inverter_is_read_and_printed(rt: HostRuntime) -> Result<(), Fail> {
    let alloc = rt.alloc();
    let g = Geometry::new(1, 1, 1, 1, 1).ok_or("within the limits")?;
    let config = read_config(alloc, g, &INVERTER)?;
    assert_eq!(rt; config.table(0, 0), 0x5555);
    assert_eq!(rt;
        print_config(alloc, &config)?.as_slice(),
        INVERTER.as_slice()
    );
    Ok(())
}

/// The outputs of the configuration of so many zero bytes, where all input pads are 1.
fn outputs_of_zeros(
    rt: &impl Abort,
    alloc: Global,
    g: Geometry,
    bytes: usize,
) -> Result<Bits, Fail> {
    let config = read_config(alloc, g, &vec![in alloc; 0; bytes]?)?;
    let mut w = Wires::new(alloc, config.geometry())?;
    let x = Bits::new(u64::MAX, 64);
    assert!(rt; x.len() <= config.geometry().i());
    Ok(eval(&config, x, &mut w))
}

#[test]
fn the_greatest_fabrics_may_be_off(rt: HostRuntime) -> Result<(), Fail> {
    let g = Geometry::new(64, 64, 256, 64, 64).ok_or("within the limits")?;
    for (g, bytes) in [(g, 74_368), (g.six(), 115_328)] {
        let outputs = outputs_of_zeros(&rt, rt.alloc(), g, bytes)?;
        assert_eq!(rt; outputs.len(), 64);
        assert_eq!(rt; outputs.word(), 0);
    }
    Ok(())
}
