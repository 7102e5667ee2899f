//! The texts of both designs, as `print_blif` prints them.

ghost use Rattle.std.specs.Prelude.{◌≡◌, ◌≤◌, IfOk};
ghost use Rattle.demo_texts.specs.Texts.{ripple_text, select_text};
ghost use Rattle.demo_texts.specs.declared.TheConstants.{MAX_BITS};

use crate::designs::{ripple, select};
use blif_read::print_blif;
use pch_base::NoMemory;
use std::alloc::Global;

/// The text of the design that adds two numbers of so many bits and hands the carry on from bit to
/// bit.
pub fn ripple_text(alloc: Global, bits: u32) -> Result<Vec<u8>, NoMemory>
    requires some { 1 ≤ bits }
    requires few { bits ≤ MAX_BITS }
    ensures { IfOk result (λ text. text.items ≡ ripple_text bits) }
{
    print_blif(alloc, &ripple(alloc, bits)?)
}

/// The text of the design that adds two numbers of so many bits in blocks of four, and computes each
/// block but the first one for both carries that may come into it.
pub fn select_text(alloc: Global, bits: u32) -> Result<Vec<u8>, NoMemory>
    requires some { 1 ≤ bits }
    requires few { bits ≤ MAX_BITS }
    ensures { IfOk result (λ text. text.items ≡ select_text bits) }
{
    print_blif(alloc, &select(alloc, bits)?)
}
