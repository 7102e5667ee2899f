ghost use Rattle.std.specs.Prelude.{◌≤◌};

use crate::{Demonstration, adders_of, demonstrate};
use demo_texts::MAX_BITS;
use netlist::same_interface;
use place_net::place;
use std::alloc::Global;
use std::test::Fail;
use std::thread::Threads;

/// What is shown of adders of so many bits.
fn shown<R: Threads + Sync>(rt: &R, alloc: Global, bits: u32) -> Result<Demonstration, Fail>
    requires some { 1 ≤ bits }
    requires few { bits ≤ 16 }
{
    let adders = adders_of(alloc, bits).ok().ok_or("no adders")?;
    Ok(
        demonstrate(rt, alloc, bits, &adders)
            .ok()
            .ok_or("no bundle")?,
    )
}

#[test]
fn adders_of_one_bit_are_shown(rt: HostRuntime) -> Result<(), Fail> {
    let d = shown(&rt, rt.alloc(), 1)?;
    assert!(rt; d.bundle.starts_with(b"PCHB"));
    assert!(rt; d.ones.as_slice() == [2, 1].as_slice());
    Ok(())
}

#[test]
fn adders_of_two_bits_are_shown(rt: HostRuntime) -> Result<(), Fail> {
    let d = shown(&rt, rt.alloc(), 2)?;
    assert!(rt; d.ones.as_slice() == [8, 8, 6].as_slice());
    Ok(())
}

#[test]
fn adders_of_all_sizes_are_placed(rt: HostRuntime) -> Result<(), Fail> {
    let alloc = rt.alloc();
    for bits in 1..=MAX_BITS {
        let adders = adders_of(alloc, bits).ok().ok_or("no adders")?;
        assert!(rt; same_interface(alloc, &adders.spec, &adders.design).is_ok());
        let g = adders.fabric;
        assert!(rt; g.i() == 2 * bits && g.o() == bits + 1);
        assert!(rt; place(alloc, &adders.design, g).is_ok());
    }
    Ok(())
}
