ghost use Rattle.std.specs.Prelude.{◌≡◌, ◌≤◌, length, option_map, IfSome};
ghost use Rattle.sat_text_defs.specs.Spellings.{literal_in};
ghost use Rattle.sat_scan.specs.Scan.{word_at, behind_word_at};

use crate::numbers::positive_at;
use clause_defs::MAX_VARIABLE;
use pch_base::Lit;

/// A literal that a word spells, and the place behind the word.
#[derive(Clone, Copy, Debug, PartialEq, Eq)]
pub struct LitWord {
    pub lit: Lit,
    pub end: usize,
}

/// The literal that the word at `at` spells, if it spells one.
#[inline]
pub fn literal_at(text: &[u8], at: usize) -> Option<LitWord>
    requires { at ≤ length text.now }
    ensures value { option_map (λ w. w.lit) result ≡ literal_in (word_at at text.now) }
    ensures end { IfSome result (λ w. w.end ≡ behind_word_at at text.now) }
    ensures within { IfSome result (λ w. w.end ≤ length text.now) }
{
    // One call for both signs: two would be too long to stand in the readers' loops.
    let negative = at < text.len() && text[at] == b'-';
    let number = positive_at(text, at + usize::from(negative), MAX_VARIABLE)?;
    Some(LitWord {
        lit: Lit::from_parts(number.value, !negative),
        end: number.end,
    })
}
