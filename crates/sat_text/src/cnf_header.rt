ghost use Rattle.std.specs.Prelude.{◌≡◌, ◌+◌, ◌≤◌, true, [], ◌∷◌, length, drop, IfOk};
ghost use Rattle.sat_text_defs.specs.CnfText.{line_end};
ghost use Rattle.sat_text_defs.specs.CnfReading.{number_before, header_in, same_word};
ghost use Rattle.sat_scan.specs.Scan.{word_at, behind_word_at, cnf_tokens_from, IsAtCnfWord};
ghost use Rattle.text_defs.specs.Memory.{Gives};
ghost use Rattle.sat_text_defs.specs.declared.errors.CnfError.TheVariants.{NoMemory};
ghost use Rattle.sat_text.specs.Header.{header_at};

use clause_defs::{MAX_CLAUSES, MAX_VARIABLE};
use sat_scan::{is_separator, next_cnf_word, number_at};
use sat_text_defs::{CnfError, MAX_CNF_BYTES};

/// The first line feed from `from` on, or the end of the text.
fn end_of_line(text: &[u8], from: usize) -> usize
    requires { from ≤ length text.now }
    ensures value { result ≡ line_end from (drop from text.now) }
    ensures within { result ≤ length text.now }
{
    let mut end = from;
    while end < text.len() && text[end] != b'\n' {
        end += 1;
    }
    end
}

/// Whether the word at `at` is this one.
fn is_word_at(text: &[u8], at: usize, word: &[u8]) -> bool
    requires { at ≤ length text.now }
    ensures value { result ≡ same_word (word_at at text.now) word.now }
    ensures behind { result ≡ true → behind_word_at at text.now ≡ at + length word.now }
    ensures within { result ≡ true → at + length word.now ≤ length text.now }
{
    let mut end = at;
    for byte in word {
        if end == text.len() || text[end] != *byte || is_separator(*byte) {
            return false;
        }
        end += 1;
    }
    end == text.len() || is_separator(text[end])
}

/// The place of the word behind the number at `at`, and the number, which must be at most `max` and
/// stand before the end of the line.
fn number_on_line(text: &[u8], at: usize, line: usize, max: u32) -> Result<(u32, usize), CnfError>
    requires stands { IsAtCnfWord at text.now }
    requires short { length text.now ≤ MAX_CNF_BYTES }
    requires digits { 9 ≤ max }
    ensures exact { Gives NoMemory (λ n. (n.0, cnf_tokens_from n.1 text.now)) result
        (number_before (length text.now) line max (cnf_tokens_from at text.now)) }
    ensures stands { IfOk result (λ n. IsAtCnfWord n.1 text.now) }
{
    if at >= line {
        return Err(CnfError::Syntax { at: at as u32 });
    }
    let Some(number) = number_at(text, at, max) else {
        return Err(CnfError::Syntax { at: at as u32 });
    };
    Ok((number.value, next_cnf_word(text, number.end)))
}

/// The numbers of a header, and the place of the first word behind its line.
#[derive(Clone, Copy, Debug)]
pub struct HeaderEnd {
    pub variables: u32,
    pub clauses: u32,
    pub rest: usize,
}

/// Reads the header whose first word begins at `at`.
pub fn read_header(text: &[u8], at: usize) -> Result<HeaderEnd, CnfError>
    requires stands { IsAtCnfWord at text.now }
    requires short { length text.now ≤ MAX_CNF_BYTES }
    ensures exact { Gives NoMemory (λ h. header_at h text.now) result
        (header_in (length text.now) (line_end at (drop at text.now))
        (cnf_tokens_from at text.now)) }
    ensures within { IfOk result (λ h. h.rest ≤ length text.now) }
{
    let line = end_of_line(text, at);
    if at >= line || !is_word_at(text, at, b"p") {
        return Err(CnfError::Syntax { at: at as u32 });
    }
    let at = next_cnf_word(text, at + 1);
    if at >= line || !is_word_at(text, at, b"cnf") {
        return Err(CnfError::Syntax { at: at as u32 });
    }
    let at = next_cnf_word(text, at + 3);
    let (variables, at) = number_on_line(text, at, line, MAX_VARIABLE)?;
    let (clauses, rest) = number_on_line(text, at, line, MAX_CLAUSES)?;
    if rest < line {
        return Err(CnfError::Syntax { at: rest as u32 });
    }
    Ok(HeaderEnd {
        variables,
        clauses,
        rest,
    })
}
