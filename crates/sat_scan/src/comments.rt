ghost use Rattle.std.specs.Prelude.{◌≡◌, ◌<◌, ◌≤◌, [], ◌∷◌, length, drop};
ghost use Rattle.text_defs.specs.Tokens.{tokens};
ghost use Rattle.sat_text_defs.specs.Words.{separates};
ghost use Rattle.sat_text_defs.specs.CnfText.{uncommented, first};
ghost use Rattle.sat_scan.specs.Scan.{cnf_tokens_from, IsAtCnfWord};

use crate::words::is_separator;

/// The end of the comment line that begins at `at`, and `at` where none does; `at` begins a line.
#[inline]
pub fn behind_comment(text: &[u8], at: usize) -> usize
    requires { at ≤ length text.now }
    ensures not_before { at ≤ result }
    ensures within { result ≤ length text.now }
    ensures skipped { tokens separates at (uncommented first (drop at text.now))
        ≡ cnf_tokens_from result text.now }
{
    if at == text.len() || text[at] != b'c' {
        return at;
    }
    let mut end = at + 1;
    while end < text.len() && text[end] != b'\n' {
        end += 1;
    }
    end
}

/// The first place from `from` on where a word of a CNF begins, or the end of the text; `from` doesn't
/// begin a line.
#[inline]
pub fn next_cnf_word(text: &[u8], from: usize) -> usize
    requires { from ≤ length text.now }
    ensures not_before { from ≤ result }
    ensures skipped { cnf_tokens_from from text.now ≡ cnf_tokens_from result text.now }
    ensures stands { IsAtCnfWord result text.now }
{
    let mut at = from;
    while at < text.len() && is_separator(text[at]) {
        let ends_line = text[at] == b'\n';
        at += 1;
        if ends_line {
            at = behind_comment(text, at);
        }
    }
    at
}
