ghost use Rattle.std.specs.Prelude.{◌≡◌, ◌≤◌, IfOk, OnOk, IfErr};
ghost use Rattle.std.specs.Arc.{arc_value};
ghost use Rattle.clause_defs.specs.declared.verdict.Verdict.TheVariants.{Refutes};
ghost use Rattle.text_defs.specs.Memory.{Gives};
ghost use Rattle.sat_text_defs.specs.declared.errors.TraceError.TheVariants as trace_errors;
ghost use Rattle.sat_text_defs.specs.TraceReading.{trace_in};
ghost use Rattle.fabric_defs.specs.Configurations.{IsConfig};
ghost use Rattle.miter_defs.specs.Equality.{FitsPads, Equal};
ghost use Rattle.bundle_defs.specs.Bundles.{IsVersion};
ghost use Rattle.bundle.specs.Values.{value_of};
ghost use Rattle.verify_defs.specs.Acceptance.{IsBundleFor, HasParts, ShowsOfMiter, AcceptsWith};
ghost use Rattle.verify_defs.specs.Refusals.{Refuses};
ghost use Rattle.verify.specs.Answers.{RefusesFitting, Misses};

use crate::verified::Verified;
use bundle::{Bundle, read_bundle};
use clause_defs::Verdict;
use extract::extract;
use fabric::{Config, Geometry};
use fabric_bytes::read_config;
use miter_cnf::{fits_pads, miter};
use netlist::Net;
use par_check::check_pieces;
use sat_text::{Trace, TraceError, read_compact, read_trace};
use std::alloc::Global;
use std::sync::Arc;
use std::thread::Threads;
use verify_defs::Refusal;

/// Judges the bytes of a bundle for a net on a fabric.
///
/// Ok exactly where the bytes are accepted (`Accepts`): the net fits the pads, the bytes are a bundle
/// for this very fabric, with a configuration and a trace, and the trace refutes the miter of the net
/// and the configuration. It has the given net and the bundle's configuration, which are equal. Else
/// the first test that fails (`FirstRefusal`), or `NoMemory`.
///
/// `pieces`, from 1 to 64, is how many pieces of the trace may be checked at once, on threads of their
/// own. The answer is the same for each number.
pub fn verify<R: Threads + Sync>(
    rt: &R,
    alloc: Global,
    net: &Arc<Net>,
    g: Geometry,
    bytes: &[u8],
    pieces: u32,
) -> Result<Verified, Refusal>
    requires some_piece { 1 ≤ pieces }
    requires few_pieces { pieces ≤ 64 }
    ensures accepted { IfOk result (λ v. AcceptsWith g (arc_value net.now) bytes.now v.config) }
    ensures same_net { IfOk result (λ v. v.net ≡ arc_value net.now) }
    ensures equal { IfOk result (λ v. Equal v.net v.config) }
    ensures refused { IfErr result (Refuses g (arc_value net.now) bytes.now) }
{
    let config = accepted_config(rt, alloc, net, g, bytes, pieces)?;
    Ok(Verified {
        net: net.clone()?,
        config: Arc::new(alloc, config)?,
    })
}

/// The configuration of accepted bytes, which equals the net.
fn accepted_config<R: Threads + Sync>(
    rt: &R,
    alloc: Global,
    net: &Net,
    g: Geometry,
    bytes: &[u8],
    pieces: u32,
) -> Result<Config, Refusal>
    requires some_piece { 1 ≤ pieces }
    requires few_pieces { pieces ≤ 64 }
    ensures accepted { IfOk result (AcceptsWith g net.now bytes.now) }
    ensures equal { IfOk result (Equal net.now) }
    ensures refused { IfErr result (Refuses g net.now bytes.now) }
{
    if !fits_pads(net, g) {
        return Err(Refusal::Pads);
    }
    let (config, trace) = parts_of(alloc, g, bytes)?;
    refute_miter(rt, alloc, net, &config, &trace, pieces)?;
    Ok(config)
}

/// The configuration and the trace of a bundle for this fabric.
fn parts_of(alloc: Global, g: Geometry, bytes: &[u8]) -> Result<(Config, Trace), Refusal>
    ensures parts { IfOk result (λ p. HasParts g bytes.now p.0 p.1) }
    ensures refused { IfErr result (RefusesFitting g bytes.now) }
{
    let bundle = match bundle_for(g, bytes) {
        Ok(bundle) => bundle,
        Err(refusal) => return Err(refusal),
    };
    let config = read_config(alloc, g, bundle.config)?;
    let trace = trace_of(alloc, bundle)?;
    Ok((config, trace))
}

/// The bundle, if it is one for this fabric.
fn bundle_for(g: Geometry, bytes: &[u8]) -> Result<Bundle<'_>, Refusal>
    ensures bundle { IfOk result (λ b. IsBundleFor g bytes.now (value_of b)) }
    ensures refused { IfErr result (RefusesFitting g bytes.now) }
{
    match read_bundle(bytes) {
        Ok(bundle) if bundle.geometry == g => Ok(bundle),
        Ok(_) => Err(Refusal::OtherFabric),
        Err(fault) => Err(Refusal::Bundle(fault)),
    }
}

/// The trace of a bundle. In a bundle of version 1 each of its clauses states its literals.
fn trace_of(alloc: Global, bundle: Bundle<'_>) -> Result<Trace, TraceError>
    ensures { Gives trace_errors.NoMemory (λ t. t) result
        (trace_in bundle.entry.version bundle.entry.trace.now) }
{
    if bundle.version == 1 {
        read_trace(alloc, bundle.trace)
    } else {
        read_compact(alloc, bundle.trace)
    }
}

/// Checks the trace against the miter of the net and the configuration. Where it refutes the miter, the
/// two are equal.
fn refute_miter<R: Threads + Sync>(
    rt: &R,
    alloc: Global,
    net: &Net,
    config: &Config,
    trace: &Trace,
    pieces: u32,
) -> Result<(), Refusal>
    requires some_piece { 1 ≤ pieces }
    requires few_pieces { pieces ≤ 64 }
    requires fits { FitsPads net.now config.now.geometry }
    requires config { IsConfig config.now }
    ensures refutes { OnOk result (ShowsOfMiter net.now config.now trace.now Refutes) }
    ensures equal { OnOk result (Equal net.now config.now) }
    ensures refused { IfErr result (Misses net.now config.now trace.now) }
{
    let cells = extract(alloc, config)?;
    let miter = miter(alloc, net, &cells)?;
    match check_pieces(rt, alloc, &miter, trace, pieces)? {
        Verdict::Refutes => Ok(()),
        verdict => Err(Refusal::Verdict(verdict)),
    }
}
