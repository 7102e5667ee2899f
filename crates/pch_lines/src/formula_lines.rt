//! The lines of the faults of CNFs and of traces. Each begins with what stands in front, and none is
//! printed for want of memory.

ghost use Rattle.std.specs.Prelude.{◌≡◌, ◌≢◌, IfOk};
ghost use Rattle.pch_lines.specs.FaultLines.{cnf_line, trace_line};

use crate::line::Line;
use pch_base::NoMemory;
use sat_text_defs::{CnfError, TraceError};

/// The line of a CNF's fault.
pub fn cnf_line(front: Line, error: CnfError) -> Result<Vec<u8>, NoMemory>
    ensures line { IfOk result (λ text. text.items ≡ cnf_line front error) }
    ensures fault { IfOk result (λ _. error ≢ CnfError.NoMemory) }
{
    match error {
        CnfError::TooLong => front.word("too-long")?.end(),
        CnfError::Syntax { at } => front.word("syntax")?.number(at)?.end(),
        CnfError::VarRange { at } => front.word("var-range")?.number(at)?.end(),
        CnfError::Count { said, found } => {
            front.word("count")?.number(said)?.number(found)?.end()
        }
        CnfError::NoMemory => Err(NoMemory),
    }
}

/// The line of a trace's fault.
pub fn trace_line(front: Line, error: TraceError) -> Result<Vec<u8>, NoMemory>
    ensures line { IfOk result (λ text. text.items ≡ trace_line front error) }
    ensures fault { IfOk result (λ _. error ≢ TraceError.NoMemory) }
{
    match error {
        TraceError::TooLong => front.word("too-long")?.end(),
        TraceError::Syntax { at } => front.word("syntax")?.number(at)?.end(),
        TraceError::Repeated { index } => front.word("repeated")?.number(index)?.end(),
        TraceError::Unknown { index, antecedent } => {
            front
                .word("unknown")?
                .number(index)?
                .number(antecedent)?
                .end()
        }
        TraceError::NoMemory => Err(NoMemory),
    }
}
