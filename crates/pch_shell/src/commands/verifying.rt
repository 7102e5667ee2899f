//! `verify SPEC BUNDLE C R T I O WORKERS`: the specification is read and built, and the bundle judged.

ghost use Rattle.std.specs.Prelude.{◌≡◌, ◌≢◌, ◌≤◌, IfOk, codes};
ghost use Rattle.net_defs.specs.declared.specification.SpecError.{SpecError};
ghost use Rattle.pch_lines.specs.Lines.{and_word};
ghost use Rattle.pch_lines.specs.FaultLines.{spec_line};
ghost use Rattle.pch_shell.specs.Outcomes.{bad_input};
ghost use Rattle.pch_shell.specs.Verify.{VerifyDue};

use crate::ending::Ending;
use fabric::Geometry;
use net_defs::SpecError;
use netlist::read_specification;
use pch_base::NoMemory;
use pch_lines::{Line, refusal_line, spec_line};
use script_defs::MAX_WORKERS;
use std::alloc::Global;
use std::sync::Arc;
use std::thread::Threads;
use verify::verify;

/// Reads and builds the specification, and judges the bundle for its net on the fabric.
pub fn run<R: Threads + Sync>(
    rt: &R,
    alloc: Global,
    spec: &str,
    g: Geometry,
    workers: u32,
    spec_bytes: Vec<u8>,
    bundle_bytes: Vec<u8>,
) -> Result<Ending, NoMemory>
    requires some_worker { 1 ≤ workers }
    requires few_workers { workers ≤ MAX_WORKERS }
    ensures { IfOk result (VerifyDue spec.now g spec_bytes.items bundle_bytes.items) }
{
    let net = match read_specification(alloc, &spec_bytes) {
        Ok(net) => net,
        Err(error) => return bad_spec(alloc, spec, error),
    };
    drop(spec_bytes);
    let net = Arc::new(alloc, net)?;
    match verify(rt, alloc, &net, g, &bundle_bytes, workers) {
        Ok(_) => Ok(Ending::done(Line::new(alloc, "verified")?.end()?)),
        Err(refusal) => Ok(Ending::refused(refusal_line(alloc, refusal)?)),
    }
}

/// The specification has a fault.
pub fn bad_spec(alloc: Global, name: &str, error: SpecError) -> Result<Ending, NoMemory>
    ensures ending { IfOk result (λ e.
        e ≡ bad_input (spec_line (and_word (codes "blif") name.now) error)) }
    ensures fault { IfOk result (λ _. error ≢ SpecError.NoMemory) }
{
    let front = Line::new(alloc, "blif")?.word(name)?;
    Ok(Ending::bad_input(spec_line(front, error)?))
}
