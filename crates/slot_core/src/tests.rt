use crate::{Cycle, Entry, Ready, Table, answer};
use fabric::{Geometry, Wires};
use pch_base::Bits;
use std::test::Fail;
use std::thread;

#[test]
fn a_table_moves_to_a_thread(rt: HostRuntime) -> Result<(), Fail> {
    let alloc = rt.alloc();
    let g = Geometry::new(1, 1, 1, 1, 1).ok_or("within the limits")?;
    let mut w = Wires::new(alloc, g)?;
    let mut table = Table::new(alloc, g, 2, 1)?;
    let entry = Entry::Evicted {
        lane: 0,
        turn: 0,
        slot: 1,
    };
    table.apply(Ready::of(&entry)?);
    let reply = answer(&table, 1, Bits::new(0, 1), 0, &mut w);
    assert!(rt; matches!(reply, Cycle::Vacant { at: 1 }));
    let there = thread::spawn(&rt, move || table.len())?;
    assert_eq!(rt; there.join(&rt), 1);
    Ok(())
}
