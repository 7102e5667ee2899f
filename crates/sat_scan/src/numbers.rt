ghost use Rattle.std.specs.Prelude.{◌≡◌, ◌≤◌, length, option_map, IfSome};
ghost use Rattle.text_defs.specs.Numbers.{positive_within, number_within};
ghost use Rattle.sat_scan.specs.Scan.{word_at, behind_word_at};

use crate::words::{is_separator, is_zero_at};

/// A number that a word spells, and the place behind the word.
#[derive(Clone, Copy, Debug, PartialEq, Eq)]
pub struct Number {
    pub value: u32,
    pub end: usize,
}

/// The number from 1 to `max` that the word at `at` spells, if it spells one.
#[inline]
pub fn positive_at(text: &[u8], at: usize, max: u32) -> Option<Number>
    requires within { at ≤ length text.now }
    requires digits { 9 ≤ max }
    ensures value { option_map (λ n. n.value) result ≡ positive_within max (word_at at text.now) }
    ensures end { IfSome result (λ n. n.end ≡ behind_word_at at text.now) }
    ensures within { IfSome result (λ n. n.end ≤ length text.now) }
    ensures range { IfSome result (λ n. (1 ≤ n.value) × (n.value ≤ max)) }
{
    if at == text.len() || text[at] <= b'0' || text[at] > b'9' {
        return None;
    }
    let mut value = u64::from(text[at] - b'0');
    let mut end = at + 1;
    while end < text.len() && b'0' <= text[end] && text[end] <= b'9' {
        value = 10 * value + u64::from(text[end] - b'0');
        if value > u64::from(max) {
            return None;
        }
        end += 1;
    }
    if end < text.len() && !is_separator(text[end]) {
        return None;
    }
    Some(Number {
        value: value as u32,
        end,
    })
}

/// The number from 0 to `max` that the word at `at` spells, if it spells one.
#[inline]
pub fn number_at(text: &[u8], at: usize, max: u32) -> Option<Number>
    requires within { at ≤ length text.now }
    requires digits { 9 ≤ max }
    ensures value { option_map (λ n. n.value) result ≡ number_within max (word_at at text.now) }
    ensures end { IfSome result (λ n. n.end ≡ behind_word_at at text.now) }
    ensures within { IfSome result (λ n. n.end ≤ length text.now) }
    ensures range { IfSome result (λ n. n.value ≤ max) }
{
    if is_zero_at(text, at) {
        return Some(Number {
            value: 0,
            end: at + 1,
        });
    }
    positive_at(text, at, max)
}
