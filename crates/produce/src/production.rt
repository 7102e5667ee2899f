//! From a specification and a design to a bundle.

ghost use Rattle.std.specs.Prelude.{◌≤◌, IfOk, IfErr};
ghost use Rattle.produce.specs.Endings.{EndsBy};
ghost use Rattle.produce.specs.Bundling.{Produced};

use crate::bundling::bundled;
use crate::produce_end::ProduceEnd;
use crate::refutation::{Refutation, refute};
use fabric::Geometry;
use miter_size::MAX_BUDGET;
use netlist::Net;
use std::alloc::Global;

/// The bytes of a bundle with the placed design that is accepted for the specification on the fabric, or
/// why there is none (`EndsBy`). `budget`, from 1 to 4,194,304, is how many words the derived clauses of
/// the trace may have. `Spent` comes only where it is less than what is [`enough`](crate::enough).
pub fn produce(
    alloc: Global,
    spec: &Net,
    design: &Net,
    g: Geometry,
    budget: u32,
) -> Result<Vec<u8>, ProduceEnd>
    requires some { 1 ≤ budget }
    requires budget { budget ≤ MAX_BUDGET }
    ensures produced { IfOk result (λ bytes. Produced spec.now design.now g budget bytes.items) }
    ensures ends { IfErr result (EndsBy spec.now design.now g budget) }
{
    let Refutation { config, log } = refute(alloc, spec, design, g, budget)?;
    let _geometry = config.geometry();
    match bundled(alloc, &config, log) {
        Ok(bytes) => Ok(bytes),
        Err(_) => Err(ProduceEnd::NoMemory),
    }
}
