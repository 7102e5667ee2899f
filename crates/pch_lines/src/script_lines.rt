//! The line of the fault of a script. It begins with what stands in front, and none is printed for want
//! of memory.

ghost use Rattle.std.specs.Prelude.{◌≡◌, ◌≢◌, IfOk};
ghost use Rattle.pch_lines.specs.ScriptLines.{script_line};

use crate::line::Line;
use pch_base::NoMemory;
use script_defs::ScriptError;

/// The line of a script's fault.
pub fn script_line(front: Line, error: ScriptError) -> Result<Vec<u8>, NoMemory>
    ensures line { IfOk result (λ text. text.items ≡ script_line front error) }
    ensures fault { IfOk result (λ _. error ≢ ScriptError.NoMemory) }
{
    match error {
        ScriptError::TooLong => front.word("too-long")?.end(),
        ScriptError::Line { line } => front.number(line)?.end(),
        ScriptError::NoMemory => Err(NoMemory),
    }
}
