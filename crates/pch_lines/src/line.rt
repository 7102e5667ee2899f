ghost use Rattle.std.specs.Prelude.{◌≡◌, IfOk, decimal};
ghost use Rattle.script_defs.specs.Printing.{bits_word};
ghost use Rattle.pch_lines.specs.Lines.{and_word, and_number, ended};

use pch_base::{Bits, NoMemory, print_number};
use run_script::push_bits;
use std::alloc::Global;
use std::marker::Model;

/// A line of output that is being made: words with one blank between them.
#[derive(Drop)]
pub struct Line {
    text: Vec<u8>,
}

impl Model for Line {
    ghost use Rattle.std.specs.Prelude.{List, ℕ};

    ghost Value = { List ℕ };

    ghost view = { λ l. l.text.items };
}

impl Line {
    /// A line whose first word is `word`.
    pub fn new(alloc: Global, word: &str) -> Result<Line, NoMemory>
        ensures { IfOk result (λ l. l ≡ word.now) }
    {
        Ok(Line {
            text: word.as_bytes().to_vec(alloc)?,
        })
    }

    /// The line with one word more.
    pub fn word(mut self, word: &str) -> Result<Line, NoMemory>
        ensures { IfOk result (λ l. l ≡ and_word self word.now) }
    {
        self.text.push(b' ')?;
        self.text.extend_from_slice(word.as_bytes())?;
        Ok(self)
    }

    /// The line with one number more, which may be a long one.
    pub fn long_number(mut self, n: u64) -> Result<Line, NoMemory>
        ensures { IfOk result (λ l. l ≡ and_number self n) }
    {
        self.text.push(b' ')?;
        print_number(n, &mut self.text)?;
        Ok(self)
    }

    /// The line with one number more.
    pub fn number(mut self, n: u32) -> Result<Line, NoMemory>
        ensures { IfOk result (λ l. l ≡ and_number self n) }
    {
        self.text.push(b' ')?;
        print_number(u64::from(n), &mut self.text)?;
        Ok(self)
    }

    /// The line with the word of some bits more, the first one first; `-` stands for none.
    pub fn bits(mut self, bits: Bits) -> Result<Line, NoMemory>
        ensures { IfOk result (λ l. l ≡ and_word self (bits_word bits)) }
    {
        push_bits(&mut self.text, bits)?;
        Ok(self)
    }

    /// The whole line, with its line feed.
    pub fn end(mut self) -> Result<Vec<u8>, NoMemory>
        ensures { IfOk result (λ text. text.items ≡ ended self) }
    {
        self.text.push(b'\n')?;
        Ok(self.text)
    }
}
