//! The bundle of a placed design and of the log that refutes its miter, and the text of a log.

ghost use Rattle.std.specs.Prelude.{◌≡◌, ℕ, IfOk};
ghost use Rattle.sat_text_defs.specs.Printed.{trace_text};
ghost use Rattle.sat_text_defs.specs.TraceText.{TraceText};
ghost use Rattle.bundle_defs.specs.Bundles.{IsVersion, kind_of_version};
ghost use Rattle.miter_size.specs.Sizes.{log_trace, HasShortTrace};
ghost use Rattle.verify_defs.specs.Acceptance.{HasParts};
ghost use Rattle.produce.specs.Bundling.{version_of, bundle_of_log};

use bundle::print_bundle;
use fabric::Config;
use fabric_bytes::print_config;
use fabric_defs::CellKind;
use pch_base::NoMemory;
use proof_log::Log;
use sat_text::print_trace;
use std::alloc::Global;

/// The text of the trace that the log is, which is read again in each version of bundles.
pub fn printed_log(alloc: Global, log: Log) -> Result<Vec<u8>, NoMemory>
    requires short { HasShortTrace log }
    ensures text { IfOk result (λ text. text.items ≡ trace_text (log_trace log)) }
    ensures reads { IfOk result (λ text. (v : ℕ) → TraceText text.items v (log_trace log)) }
{
    print_trace(alloc, &log.into_trace(alloc)?)
}

/// The bytes of the bundle of a configuration and of the trace that the log is.
pub(crate) fn bundled(alloc: Global, config: &Config, log: Log) -> Result<Vec<u8>, NoMemory>
    requires short { HasShortTrace log }
    ensures exact { IfOk result (λ bytes. bytes.items ≡ bundle_of_log config.now log) }
    ensures parts { IfOk result
        (λ bytes. HasParts config.now.geometry bytes.items config.now (log_trace log)) }
{
    let geometry = config.geometry();
    let _few_words = geometry.words();
    let words = print_config(alloc, config)?;
    let steps = printed_log(alloc, log)?;
    print_bundle(
        alloc,
        version_for(geometry.cell_kind()),
        geometry,
        &words,
        &steps,
    )
}

/// The version of a bundle for cells of this kind, whose trace states the literals of each clause.
fn version_for(kind: CellKind) -> u16
    ensures value { result ≡ version_of kind }
    ensures version { IsVersion result }
    ensures kind { kind ≡ kind_of_version result }
{
    match kind {
        CellKind::FourInputs => 1,
        CellKind::SixInputs => 3,
    }
}
