//! `compact BUNDLE OUT`: a bundle of version 1 becomes one of version 2, whose trace has the sign for
//! each derived clause but the last.

ghost use Rattle.std.specs.Prelude.{◌≡◌, ◌≢◌, ℕ, List, length, IfOk, codes};
ghost use Rattle.sat_text_defs.specs.TraceText.{TraceText};
ghost use Rattle.bundle_defs.specs.Bundles.{IsBundle, bundle_bytes};
ghost use Rattle.bundle.specs.Values.{value_of};
ghost use Rattle.verify_defs.specs.Compacting.{compacted_bundle};
ghost use Rattle.sat_text_defs.specs.declared.errors.TraceError.{TraceError};
ghost use Rattle.bundle_defs.specs.declared.faults.BundleError.{BundleError};
ghost use Rattle.pch_lines.specs.Lines.{and_word};
ghost use Rattle.pch_lines.specs.FaultLines.{bundle_line, trace_line};
ghost use Rattle.pch_shell.specs.Outcomes.{done_with, bad_input, written_line};
ghost use Rattle.pch_shell.specs.Compact.{CompactDue};

use crate::ending::Ending;
use bundle::{Bundle, BundleError, print_bundle, read_bundle};
use pch_base::NoMemory;
use pch_lines::{Line, bundle_line, trace_line};
use sat_text::{Trace, TraceError, print_trace, read_trace};
use sat_values::compact;
use std::alloc::Global;

/// Reads the bundle and its trace, and compacts it. The configuration isn't looked at.
pub fn run(alloc: Global, name: &str, bytes: Vec<u8>) -> Result<Ending, NoMemory>
    ensures { IfOk result (CompactDue name.now bytes.items) }
{
    let bundle = match read_bundle(&bytes) {
        Ok(bundle) => bundle,
        Err(error) => return bad_bundle(alloc, name, error),
    };
    if bundle.version != 1 {
        let found = u32::from(bundle.version);
        return bad_bundle(alloc, name, BundleError::Version { found });
    }
    match read_trace(alloc, bundle.trace) {
        Ok(steps) => compacted(alloc, bundle, steps),
        Err(error) => bad_trace(alloc, name, error),
    }
}

/// The bundle with the sign for each derived clause of its trace but the last.
fn compacted(alloc: Global, bundle: Bundle<'_>, steps: Trace) -> Result<Ending, NoMemory>
    requires is_bundle { IsBundle (value_of bundle) }
    requires version { bundle.version ≡ 1 }
    requires trace { TraceText bundle.trace.now 1 steps }
    ensures { IfOk result (λ e. (short : List ℕ)
        × (short ≡ bundle_bytes (compacted_bundle (value_of bundle.entry) steps))
        × (e ≡ done_with short (written_line (length short)))) }
{
    let trace = print_trace(alloc, &compact(alloc, steps)?)?;
    let bytes = print_bundle(alloc, 2, bundle.geometry, bundle.config, &trace)?;
    Ending::written(alloc, bytes)
}

/// The bundle has a fault, or isn't of the version that is wanted.
fn bad_bundle(alloc: Global, name: &str, error: BundleError) -> Result<Ending, NoMemory>
    ensures { IfOk result (λ e.
        e ≡ bad_input (bundle_line (and_word (codes "bundle") name.now) error)) }
{
    let front = Line::new(alloc, "bundle")?.word(name)?;
    Ok(Ending::bad_input(bundle_line(front, error)?))
}

/// The trace in the bundle has a fault.
fn bad_trace(alloc: Global, name: &str, error: TraceError) -> Result<Ending, NoMemory>
    ensures ending { IfOk result (λ e.
        e ≡ bad_input
        (trace_line (and_word (and_word (codes "bundle") name.now) (codes "trace")) error)) }
    ensures fault { IfOk result (λ _. error ≢ TraceError.NoMemory) }
{
    let front = Line::new(alloc, "bundle")?.word(name)?.word("trace")?;
    Ok(Ending::bad_input(trace_line(front, error)?))
}
