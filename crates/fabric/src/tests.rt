use crate::{Config, Geometry, Wires, cell, eval};
use pch_base::Bits;
use std::alloc::Global;
use std::process::Abort;
use std::test::Fail;
use std::thread;

/// One cell that negates the one input pad.
const INVERTER: [u16; 8] = [1, 1, 0, 0, 0, 0x5555, 2, 1];

/// The same with a cell of six inputs.
const SIX_INVERTER: [u16; 13] = [1, 1, 0, 0, 0, 0, 0, 0x5555, 0x5555, 0x5555, 0x5555, 2, 1];

/// Two columns of one cell of six inputs. The tracks of channel 0 have the input pads a, b and c.
/// Cell 0 has the pins a, b, off, off, c and b; channel 1 has cell 0 in place of a. Cell 1 has the
/// pins c, off, cell 0, off, b and cell 0 once more. The output pads have cell 1 and cell 0.
const TWO_COLUMNS: [u16; 31] = [
    1, 2, 3, 1, 2, 0, 0, 3, 2, 0x00f0, 0x0005, 0x000a, 0x000f, 2, 1, 1, 3, 0, 1, 0, 2, 1, 0x0021,
    0x0032, 0x0001, 0x0012, 1, 2, 1, 2, 1,
];

/// The bits of the output pads as a word, and the bit of cell 0.
fn bits_of(
    rt: &impl Abort,
    alloc: Global,
    g: Geometry,
    words: &[u16],
    x: Bits,
) -> Result<(u64, bool), Fail> {
    let config = Config::new(g, Vec::from_slice(alloc, words)?)?;
    let mut w = Wires::new(alloc, config.geometry())?;
    assert!(rt; x.len() <= config.geometry().i());
    let outputs = eval(&config, x, &mut w).word();
    Ok((outputs, cell(&w, 0)))
}

#[test]
fn inverters_of_both_kinds_invert(rt: HostRuntime) -> Result<(), Fail> {
    let alloc = rt.alloc();
    let four = Geometry::new(1, 1, 1, 1, 1).ok_or("within the limits")?;
    let six = four.six();
    assert!(rt; four != six);
    for (g, words) in [(four, INVERTER.as_slice()), (six, SIX_INVERTER.as_slice())] {
        assert_eq!(rt; bits_of(&rt, alloc, g, words, Bits::new(0, 1))?, (1, true));
        assert_eq!(rt; bits_of(&rt, alloc, g, words, Bits::new(1, 1))?, (0, false));
        // A pad past the given bits reads 0.
        assert_eq!(rt; bits_of(&rt, alloc, g, words, Bits::new(0, 0))?, (1, true));
    }
    Ok(())
}

#[test]
fn tables_and_pins_keep_their_order(rt: HostRuntime) -> Result<(), Fail> {
    let g = Geometry::new(2, 1, 3, 3, 2)
        .ok_or("within the limits")?
        .six();
    for (x, outputs) in [3, 3, 2, 1, 1, 3, 0, 0].iter().enumerate() {
        let (found, _) = bits_of(&rt, rt.alloc(), g, &TWO_COLUMNS, Bits::new(x as u64, 3))?;
        assert_eq!(rt; found, *outputs);
    }
    Ok(())
}

#[test]
fn configurations_are_shared_by_threads(rt: HostRuntime) -> Result<(), Fail> {
    let alloc = rt.alloc();
    let g = Geometry::new(1, 1, 1, 1, 1).ok_or("within the limits")?;
    let config = Config::new(g, Vec::from_slice(alloc, &INVERTER)?)?;
    let (first, all) = thread::join(
        &rt,
        || config.first_channel().len(),
        || config.words().len(),
    );
    assert_eq!(rt; first, 1);
    assert_eq!(rt; all, 8);
    Ok(())
}
