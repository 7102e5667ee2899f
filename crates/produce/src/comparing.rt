//! A net and a configuration at one input.

ghost use Rattle.std.specs.Prelude.{◌≡◌, ◌≢◌, ◌≤◌, ◌↔◌, length, take, IsTrue, IfOk};
ghost use Rattle.miter_defs.specs.Equality.{FitsPads};
ghost use Rattle.produce.specs.Learning.{AreCompared};

use fabric::{Config, Wires, eval};
use netlist::{Net, Scratch};
use pch_base::{Bits, NoMemory};
use std::alloc::Global;

/// Whether the first output pads of the configuration haven't the outputs of the net, where the inputs
/// have the bits `x`.
pub(crate) fn differ_at(
    alloc: Global,
    spec: &Net,
    config: &Config,
    x: Bits,
) -> Result<bool, NoMemory>
    requires fits { FitsPads spec.now config.now.geometry }
    requires width { length x ≡ length spec.now.inputs }
    ensures { IfOk result (AreCompared spec.now config.now x) }
{
    let geometry = config.geometry();
    let mut signals = Scratch::new(alloc, spec)?;
    let mut wires = Wires::new(alloc, geometry)?;
    let outputs = spec.eval(x, &mut signals);
    let pads = eval(config, x, &mut wires);
    Ok(are_others(outputs, pads))
}

/// Whether the first pads haven't the bits of the outputs.
fn are_others(outputs: Bits, pads: Bits) -> bool
    requires { length outputs ≤ length pads }
    ensures { IsTrue result ↔ (take (length outputs) pads ≢ outputs) }
{
    for o in 0..outputs.len() {
        if outputs.get(o) != pads.get(o) {
            return true;
        }
    }
    false
}
