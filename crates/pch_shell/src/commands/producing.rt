//! `produce SPEC DESIGN C R T I O BUDGET OUT`: both designs are read and built, and a bundle is produced
//! with the placed design that every consumer accepts for the specification.

ghost use Rattle.std.specs.Prelude.{◌≤◌, IfOk};
ghost use Rattle.pch_shell.specs.Produce.{ToldOfEnd, CanBeTold, ProduceDue};

use crate::commands::verifying::bad_spec;
use crate::ending::Ending;
use fabric::Geometry;
use miter_size::MAX_BUDGET;
use netlist::{Net, read_specification};
use pch_base::NoMemory;
use pch_lines::{differs_line, interface_line, spent_line, unroutable_line};
use produce::{ProduceEnd, outputs_at, printed_log, produce};
use route_defs::Demand;
use std::alloc::Global;

/// Reads and builds the specification and the design, and produces a bundle, which is what is saved. Where
/// the budget is spent, the trace of the log so far is saved.
pub fn run(
    alloc: Global,
    spec_name: &str,
    design_name: &str,
    g: Geometry,
    budget: u32,
    spec_bytes: Vec<u8>,
    design_bytes: Vec<u8>,
) -> Result<Ending, NoMemory>
    requires some { 1 ≤ budget }
    requires few { budget ≤ MAX_BUDGET }
    ensures { IfOk result
        (ProduceDue spec_name.now design_name.now g budget spec_bytes.items design_bytes.items) }
{
    let spec = match read_specification(alloc, &spec_bytes) {
        Ok(net) => net,
        Err(error) => return bad_spec(alloc, spec_name, error),
    };
    drop(spec_bytes);
    let design = match read_specification(alloc, &design_bytes) {
        Ok(net) => net,
        Err(error) => return bad_spec(alloc, design_name, error),
    };
    drop(design_bytes);
    match produce(alloc, &spec, &design, g, budget) {
        Ok(bytes) => Ending::written(alloc, bytes),
        Err(end) => not_produced(alloc, &spec, &design, end),
    }
}

/// What is told where nothing was produced, for this reason.
pub fn not_produced(
    alloc: Global,
    spec: &Net,
    design: &Net,
    end: ProduceEnd,
) -> Result<Ending, NoMemory>
    requires { CanBeTold spec.now design.now end }
    ensures { IfOk result (ToldOfEnd spec.now design.now end) }
{
    match end {
        ProduceEnd::Interface(error) => Ok(Ending::bad_input(interface_line(alloc, error)?)),
        ProduceEnd::Unroutable {
            resource,
            place,
            need,
            have,
        } => {
            let over = Demand {
                resource,
                place,
                need,
                have,
            };
            Ok(Ending::unroutable(unroutable_line(alloc, over)?))
        }
        ProduceEnd::Differs { x } => {
            let both = outputs_at(alloc, spec, design, x)?;
            Ok(Ending::differs(differs_line(alloc, x, both.spec, both.design)?))
        }
        ProduceEnd::Spent { used, need, log } => {
            let line = spent_line(alloc, used, need)?;
            Ok(Ending::spent_with(printed_log(alloc, log)?, line))
        }
        ProduceEnd::NoMemory => Err(NoMemory),
    }
}
