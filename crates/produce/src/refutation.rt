//! From a specification and a design to the placed design and the log that refutes their miter.

ghost use Rattle.std.specs.Prelude.{◌≤◌, IfOk, IfErr};
ghost use Rattle.produce.specs.Endings.{IsRefutation, EndsBy};

use crate::aligning::aligned_design;
use crate::placing::placed_design;
use crate::produce_end::ProduceEnd;
use crate::refuting::refuted_miter;
use fabric::{Config, Geometry};
use miter_size::MAX_BUDGET;
use netlist::Net;
use proof_log::Log;
use std::alloc::Global;

/// The placed design, with a log that refutes the miter of the specification and the placed design.
#[derive(Debug, Drop)]
pub struct Refutation {
    /// The placed design.
    pub config: Config,
    /// The log, whose last clause is the empty one.
    pub log: Log,
}

/// The placed design and a log that refutes the miter of the specification and this, or why there is
/// none (`EndsBy`). `budget`, from 1 to 4,194,304, is how many words the derived clauses may have.
pub fn refute(
    alloc: Global,
    spec: &Net,
    design: &Net,
    g: Geometry,
    budget: u32,
) -> Result<Refutation, ProduceEnd>
    requires some { 1 ≤ budget }
    requires budget { budget ≤ MAX_BUDGET }
    ensures refutation { IfOk result (λ r. IsRefutation spec.now design.now g budget r.config r.log) }
    ensures ends { IfErr result (EndsBy spec.now design.now g budget) }
{
    let net = aligned_design(alloc, spec, design)?;
    let _inputs = net.inputs();
    let config = placed_design(alloc, &net, g)?;
    match refuted_miter(alloc, spec, &config, budget) {
        Ok(log) => Ok(Refutation { config, log }),
        Err(end) => Err(end),
    }
}
