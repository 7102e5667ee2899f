//! From both adders to a bundle that was judged, and the counts of its ones.

ghost use Rattle.std.specs.Prelude.{◌≡◌, ◌≤◌, IfOk, IfErr};
ghost use Rattle.std.specs.Arc.{arc_value};
ghost use Rattle.verify_defs.specs.Acceptance.{Accepts};
ghost use Rattle.produce.specs.Endings.{EndsBy};
ghost use Rattle.demo_texts.specs.declared.TheConstants.{MAX_BITS};
ghost use Rattle.demonstration.specs.declared.limits.TheConstants.{BUDGET};
ghost use Rattle.demonstration.specs.Demonstrations.{AreOnesOf, IsDemonstration, counted_values};

use crate::adders::Adders;
use crate::counting::ones_of;
use crate::limits::{BUDGET, MAX_COUNTED_BITS, WORKERS};
use demo_texts::MAX_BITS;
use fabric::Geometry;
use netlist::Net;
use pch_base::NoMemory;
use produce::{ProduceEnd, produce};
use std::alloc::Global;
use std::sync::Arc;
use std::thread::Threads;
use verify::{Refusal, Verified, verify};

/// What a demonstration shows.
#[derive(Debug, Drop)]
pub struct Demonstration {
    /// The bytes of the bundle, which is accepted for the specification.
    pub bundle: Vec<u8>,
    /// For each output, how many of the counted values make it one.
    pub ones: Vec<u64>,
}

/// Produces a bundle with the design of the adders, lets the consumer judge it for their specification,
/// and counts the ones of each output over the first 2^min(2 `bits`, 16) values. Where nothing is
/// produced, it ends as producing does (`EndsBy`).
pub fn demonstrate<R: Threads + Sync>(
    rt: &R,
    alloc: Global,
    bits: u32,
    adders: &Adders,
) -> Result<Demonstration, ProduceEnd>
    requires { bits ≤ MAX_BITS }
    ensures shown { IfOk result (λ d. IsDemonstration bits (arc_value adders.now.spec)
        adders.now.design adders.now.fabric d.bundle.items d.ones.items) }
    ensures ends { IfErr result
        (EndsBy (arc_value adders.now.spec) adders.now.design adders.now.fabric BUDGET) }
{
    let bundle = produce(alloc, &adders.spec, &adders.design, adders.fabric, BUDGET)?;
    match judged_ones(rt, alloc, bits, adders, &bundle) {
        Ok(ones) => Ok(Demonstration { bundle, ones }),
        Err(_) => Err(ProduceEnd::NoMemory),
    }
}

/// Lets the consumer judge a bundle, and counts the ones.
fn judged_ones<R: Threads + Sync>(
    rt: &R,
    alloc: Global,
    bits: u32,
    adders: &Adders,
    bundle: &[u8],
) -> Result<Vec<u64>, NoMemory>
    requires few { bits ≤ MAX_BITS }
    requires accepted { Accepts adders.now.fabric (arc_value adders.now.spec) bundle.now }
    ensures { IfOk result
        (λ ones. AreOnesOf (arc_value adders.now.spec) (counted_values bits) ones.items) }
{
    let verified = judged(rt, alloc, &adders.spec, adders.fabric, bundle)?;
    ones_of(alloc, &verified, 1 << (2 * bits).min(MAX_COUNTED_BITS))
}

/// The consumer's judgement of a bundle that is accepted: it can't be refused.
fn judged<R: Threads + Sync>(
    rt: &R,
    alloc: Global,
    spec: &Arc<Net>,
    g: Geometry,
    bundle: &[u8],
) -> Result<Verified, NoMemory>
    requires { Accepts g (arc_value spec.now) bundle.now }
    ensures { IfOk result (λ verified. verified.net ≡ arc_value spec.now) }
{
    match verify(rt, alloc, spec, g, bundle, WORKERS) {
        Ok(verified) => Ok(verified),
        Err(refusal) => match refusal {
            Refusal::NoMemory => Err(NoMemory),
            _ => unreachable!(),
        },
    }
}
