//! The lines of what `produce` comes to where it saves no bundle.

ghost use Rattle.std.specs.Prelude.{◌≡◌, ◌≢◌, IfOk};
ghost use Rattle.pch_lines.specs.ProduceLines.{side_word as word_of, interface_line, differs_line, spent_line};

use crate::line::Line;
use net_defs::{InterfaceError, Side};
use pch_base::{Bits, NoMemory};
use std::alloc::Global;

/// The word of a side.
fn side_word(side: Side) -> &'static str
    ensures { result.now ≡ word_of side }
{
    match side {
        Side::Spec => "spec",
        Side::Design => "design",
    }
}

/// The line of the first name without a partner. None is printed for want of memory.
pub fn interface_line(alloc: Global, error: InterfaceError) -> Result<Vec<u8>, NoMemory>
    ensures line { IfOk result (λ text. text.items ≡ interface_line error) }
    ensures fault { IfOk result (λ _. error ≢ InterfaceError.NoMemory) }
{
    let front = Line::new(alloc, "interface")?;
    match error {
        InterfaceError::Input { side, place } => {
            front
                .word("input")?
                .word(side_word(side))?
                .number(place)?
                .end()
        }
        InterfaceError::Output { side, place } => {
            front
                .word("output")?
                .word(side_word(side))?
                .number(place)?
                .end()
        }
        InterfaceError::NoMemory => Err(NoMemory),
    }
}

/// The line of an input at which a specification and a design differ, with the outputs of both.
pub fn differs_line(alloc: Global, x: Bits, spec: Bits, design: Bits) -> Result<Vec<u8>, NoMemory>
    ensures { IfOk result (λ text. text.items ≡ differs_line x spec design) }
{
    Line::new(alloc, "differs")?
        .bits(x)?
        .bits(spec)?
        .bits(design)?
        .end()
}

/// The line of a spent budget: the words that were used, and those of the next clause.
pub fn spent_line(alloc: Global, used: u32, need: u32) -> Result<Vec<u8>, NoMemory>
    ensures { IfOk result (λ text. text.items ≡ spent_line used need) }
{
    Line::new(alloc, "spent")?.number(used)?.number(need)?.end()
}
