ghost use Rattle.std.specs.Prelude.{◌≡◌, OnOk};
ghost use Rattle.refusal_text.specs.Words.{and_word, and_number};

use pch_base::{NoMemory, print_number};

/// Appends a blank and the word.
pub fn push_word(out: &mut Vec<u8>, word: &str) -> Result<(), NoMemory>
    ensures { OnOk result (out.new.items ≡ and_word out.old.items word.now) }
{
    out.push(b' ')?;
    out.extend_from_slice(word.as_bytes())?;
    Ok(())
}

/// Appends a blank and the number.
pub fn push_number(out: &mut Vec<u8>, n: u64) -> Result<(), NoMemory>
    ensures { OnOk result (out.new.items ≡ and_number out.old.items n) }
{
    out.push(b' ')?;
    print_number(n, out)?;
    Ok(())
}
