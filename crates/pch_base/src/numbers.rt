ghost use Rattle.std.specs.Prelude.{◌≡◌, ◌≤◌, ◌++◌, ℕ, decimal, IfSome, IfNone, OnOk, OnErr};
ghost use Rattle.text_defs.specs.Numbers.{Spells, number_from, number_in, at_most};

use crate::memory::NoMemory;
use itoa::Buffer;

/// The number that the text spells, or `None` where it spells no number or a greater one than `max`.
///
/// A number has one spelling: `0`, or a digit 1 to 9 followed by digits 0 to 9.
pub fn read_number(text: &[u8], max: u64) -> Option<u64>
    ensures some { IfSome result (λ n. Spells text.now n × (n ≤ max)) }
    ensures none { IfNone result ((n : ℕ) → Spells text.now n → n ≤ max → ⊥) }
    ensures computed { result ≡ at_most max (number_in text.now) }
{
    read_spelling(text, max)
}

fn read_spelling(text: &[u8], max: u64) -> Option<u64>
    ensures { result ≡ at_most max (number_in text.now) }
{
    match text {
        [] | [b'0', _, ..] => None,
        _ => read_digits(text, max),
    }
}

fn read_digits(text: &[u8], max: u64) -> Option<u64>
    ensures { result ≡ at_most max (number_from 0 text.now) }
{
    let mut n: u64 = 0;
    for b in text {
        if !b.is_ascii_digit() {
            return None;
        }
        let digit = u64::from(*b - b'0');
        if n > max / 10 || digit > max - 10 * n {
            return None;
        }
        n = 10 * n + digit;
    }
    Some(n)
}

/// Appends the spelling of the number. After `NoMemory` the bytes are as before.
pub fn print_number(v: u64, out: &mut Vec<u8>) -> Result<(), NoMemory>
    ensures ok { OnOk result (out.new.items ≡ out.old.items ++ decimal v) }
    ensures err { OnErr result (out.new.items ≡ out.old.items) }
{
    let mut buffer = Buffer::new();
    out.extend_from_slice(buffer.format(v).as_bytes())?;
    Ok(())
}
