//! The lines of `demo` where a bundle is shown.

ghost use Rattle.std.specs.Prelude.{◌≡◌, IfOk, codes};
ghost use Rattle.pch_lines.specs.Lines.{ended};
ghost use Rattle.pch_lines.specs.DemoLines.{and_numbers, demo_text as demo_text_of};

use crate::line::Line;
use pch_base::{NoMemory, print_number};
use std::alloc::Global;

/// The lines of the number of bits, of the judgement and of the ones of each output.
pub fn demo_text(alloc: Global, bits: u32, ones: &[u64]) -> Result<Vec<u8>, NoMemory>
    ensures { IfOk result (λ text. text.items ≡ demo_text_of bits ones.now) }
{
    let mut text = Line::new(alloc, "demo")?.number(bits)?.end()?;
    text.extend_from_slice(&Line::new(alloc, "verified")?.end()?)?;
    text.extend_from_slice(&ones_line(alloc, ones)?)?;
    Ok(text)
}

/// The line of the ones of each output.
fn ones_line(alloc: Global, ones: &[u64]) -> Result<Vec<u8>, NoMemory>
    ensures { IfOk result (λ text. text.items ≡ ended (and_numbers (codes "ones") ones.now)) }
{
    let mut text = b"ones".to_vec(alloc)?;
    for count in ones {
        text.push(b' ')?;
        print_number(*count, &mut text)?;
    }
    text.push(b'\n')?;
    Ok(text)
}
