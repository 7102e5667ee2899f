//! `demo BITS OUT`: of two adders, one is placed and produced for the other; the bundle is judged, and the
//! ones of each output are counted.

ghost use Rattle.std.specs.Prelude.{◌≤◌, IfOk};
ghost use Rattle.demo_texts.specs.declared.TheConstants.{MAX_BITS};
ghost use Rattle.demonstration.specs.Demonstrations.{AreFaulty};
ghost use Rattle.pch_shell.specs.Demo.{DemoDue};

use crate::commands::producing::not_produced;
use crate::commands::verifying::bad_spec;
use crate::ending::Ending;
use demo_texts::MAX_BITS;
use demonstration::{AddersError, adders_of, demonstrate};
use pch_base::NoMemory;
use pch_lines::demo_text;
use std::alloc::Global;
use std::thread::Threads;

/// Makes both adders of so many bits, and shows a bundle with the second one that is accepted for the
/// first one. The bundle is what is saved. Where nothing is produced, it ends as `produce` does.
pub fn run<R: Threads + Sync>(rt: &R, alloc: Global, bits: u32) -> Result<Ending, NoMemory>
    requires some { 1 ≤ bits }
    requires few { bits ≤ MAX_BITS }
    ensures { IfOk result (DemoDue bits) }
{
    let adders = match adders_of(alloc, bits) {
        Ok(adders) => adders,
        Err(error) => return bad_text(alloc, bits, error),
    };
    match demonstrate(rt, alloc, bits, &adders) {
        Ok(shown) => {
            let text = demo_text(alloc, bits, &shown.ones)?;
            Ok(Ending::done_with(shown.bundle, text))
        }
        Err(end) => not_produced(alloc, &adders.spec, &adders.design, end),
    }
}

/// A text has a fault.
fn bad_text(alloc: Global, bits: u32, error: AddersError) -> Result<Ending, NoMemory>
    requires { AreFaulty bits error }
    ensures { IfOk result (DemoDue bits) }
{
    match error {
        AddersError::Spec(error) => bad_spec(alloc, "ripple", error),
        AddersError::Design(error) => bad_spec(alloc, "select", error),
        AddersError::NoMemory => Err(NoMemory),
    }
}
