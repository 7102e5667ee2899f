//! The lines of the faults of designs, of their texts and of their networks. Each begins with what
//! stands in front, and none is printed for want of memory.

ghost use Rattle.std.specs.Prelude.{◌≡◌, ◌≢◌, IfOk};
ghost use Rattle.pch_lines.specs.FaultLines.{text_line, network_line, spec_line};

use crate::line::Line;
use blif_defs::BlifError;
use net_defs::{NetError, SpecError};
use pch_base::NoMemory;

/// The line that says why a text specifies no network.
pub fn spec_line(front: Line, error: SpecError) -> Result<Vec<u8>, NoMemory>
    ensures line { IfOk result (λ text. text.items ≡ spec_line front error) }
    ensures fault { IfOk result (λ _. error ≢ SpecError.NoMemory) }
{
    match error {
        SpecError::Text(error) => text_line(front, error),
        SpecError::Network(error) => network_line(front, error),
        SpecError::NoMemory => Err(NoMemory),
    }
}

/// The line of the fault of a design's text.
fn text_line(front: Line, error: BlifError) -> Result<Vec<u8>, NoMemory>
    ensures { IfOk result (λ text. text.items ≡ text_line front error) }
{
    match error {
        BlifError::TooLong => front.word("too-long")?.end(),
        BlifError::Syntax { line } => front.word("syntax")?.number(line)?.end(),
        BlifError::Unsupported { line } => front.word("unsupported")?.number(line)?.end(),
        BlifError::Mixed { line } => front.word("mixed")?.number(line)?.end(),
        BlifError::DoubleDriven { line } => front.word("double-driven")?.number(line)?.end(),
        BlifError::RepeatedOutput { line } => front.word("repeated-output")?.number(line)?.end(),
        BlifError::Limit { line } => front.word("limit")?.number(line)?.end(),
        BlifError::NoOutputs => front.word("no-outputs")?.end(),
        BlifError::NoMemory => Err(NoMemory),
    }
}

/// The line of the fault of a design's network.
fn network_line(front: Line, error: NetError) -> Result<Vec<u8>, NoMemory>
    ensures { IfOk result (λ text. text.items ≡ network_line front error) }
{
    match error {
        NetError::UndrivenPin { node, pin } => {
            front.word("undriven-pin")?.number(node)?.number(pin)?.end()
        }
        NetError::UndrivenOutput { place } => {
            front.word("undriven-output")?.number(place)?.end()
        }
        NetError::Cycle { node } => front.word("cycle")?.number(node)?.end(),
        NetError::NoMemory => Err(NoMemory),
    }
}
