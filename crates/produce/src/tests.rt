ghost use Rattle.std.specs.Prelude.{◌≤◌};

use crate::{ProduceEnd, enough, produce};
use fabric::Geometry;
use miter_size::MAX_BUDGET;
use netlist::{Net, read_specification};
use std::alloc::Global;
use std::test::Fail;

const INVERTER: &[u8] = b".inputs a\n.outputs y\n.names a y\n0 1\n.end\n";

const BUFFER: &[u8] = b".inputs a\n.outputs y\n.names a y\n1 1\n.end\n";

fn net_of(alloc: Global, text: &[u8]) -> Result<Net, Fail> {
    Ok(read_specification(alloc, text).ok().ok_or("no net")?)
}

/// Which end producing the design for an inverter comes to, with so many words.
fn end_for(alloc: Global, design: &[u8], budget: u32) -> Result<&'static str, Fail>
    requires some { 1 ≤ budget }
    requires few { budget ≤ MAX_BUDGET }
{
    let spec = net_of(alloc, INVERTER)?;
    let net = net_of(alloc, design)?;
    let g = Geometry::new(1, 1, 2, 1, 1).ok_or("no fabric")?;
    Ok(match produce(alloc, &spec, &net, g, budget) {
        Ok(bytes) => kind_of(&bytes),
        Err(end) => name_of(&end),
    })
}

fn kind_of(bytes: &[u8]) -> &'static str {
    if bytes.starts_with(b"PCHB") {
        "bundle"
    } else {
        "other bytes"
    }
}

fn name_of(end: &ProduceEnd) -> &'static str {
    match end {
        ProduceEnd::Differs { .. } => "differs",
        ProduceEnd::Spent { used: 0, .. } => "spent at once",
        _ => "another end",
    }
}

#[test]
fn an_inverter_a_buffer_and_a_spent_budget(rt: HostRuntime) -> Result<(), Fail> {
    let alloc = rt.alloc();
    assert!(rt; enough(1, 6) == 48);
    assert_eq!(rt; end_for(alloc, INVERTER, 48)?, "bundle");
    assert_eq!(rt; end_for(alloc, INVERTER, 4_194_304)?, "bundle");
    assert_eq!(rt; end_for(alloc, INVERTER, 1)?, "spent at once");
    assert_eq!(rt; end_for(alloc, BUFFER, 48)?, "differs");
    Ok(())
}
