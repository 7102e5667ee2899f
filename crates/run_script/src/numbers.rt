//! The numbers and bits that words spell.
ghost use Rattle.std.specs.Prelude.{◌≡◌, ◌≤◌, length, map, IfSome};
ghost use Rattle.std.specs.List.{list_all};
ghost use Rattle.text_defs.specs.Numbers.{number_within, positive_within};
ghost use Rattle.script_defs.specs.Commands.{number_below, max_long, is_bit_byte, bit_in, bits_in};

use pch_base::{Bits, read_number};

/// The number from 1 to the limit that the word spells.
pub(crate) fn count_of(word: &[u8], limit: u32) -> Option<u32>
    ensures number { result ≡ positive_within limit word.now }
    ensures within { IfSome result (λ n. (1 ≤ n) × (n ≤ limit)) }
{
    match read_number(word, u64::from(limit)) {
        Some(n) if n >= 1 => Some(n as u32),
        _ => None,
    }
}

/// The number below the bound that the word spells.
pub(crate) fn number_below(bound: u32, word: &[u8]) -> Option<u32>
    ensures { result ≡ number_below bound word.now }
{
    match read_number(word, u64::from(bound)) {
        Some(n) if n < u64::from(bound) => Some(n as u32),
        _ => None,
    }
}

/// The number of 64 bits that the word spells.
pub(crate) fn long_number_of(word: &[u8]) -> Option<u64>
    ensures { result ≡ number_within max_long word.now }
{
    read_number(word, u64::MAX)
}

/// Whether each byte is `0` or `1`.
fn are_bit_bytes(word: &[u8]) -> bool
    ensures { result ≡ list_all is_bit_byte word.now }
{
    for b in word {
        if *b != b'0' && *b != b'1' {
            return false;
        }
    }
    true
}

/// The bits of bytes, of which each `1` is a one.
fn bits_from(word: &[u8]) -> Bits
    requires { length word.now ≤ 64 }
    ensures { result ≡ map bit_in word.now }
{
    let mut bits = Bits::new(0, word.len() as u32);
    for (i, b) in word.iter().enumerate() {
        bits = bits.with(i as u32, *b == b'1');
    }
    bits
}

/// The bits that a word spells, none for `-`.
pub(crate) fn bits_of(word: &[u8]) -> Option<Bits>
    ensures { result ≡ bits_in word.now }
{
    if word == b"-".as_slice() {
        return Some(Bits::new(0, 0));
    }
    if word.is_empty() || word.len() > 64 || !are_bit_bytes(word) {
        return None;
    }
    Some(bits_from(word))
}
