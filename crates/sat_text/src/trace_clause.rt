//! Reads one clause of a trace, word by word.
ghost use Rattle.std.specs.Prelude.{◌≡◌, ◌&&◌, ℕ, ◌+◌, ◌<◌, ◌≤◌, true, [], length, ok_or, Option, Some, IfOk};
ghost use Rattle.clause_defs.specs.Clauses.{Lits};
ghost use Rattle.text_defs.specs.Memory.{Gives};
ghost use Rattle.sat_text_defs.specs.Spellings.{is_zero, is_sign, literal_in};
ghost use Rattle.sat_text_defs.specs.TraceReading.{behind_index, among_lits, among_antecedents, index_from, has_sign};
ghost use Rattle.sat_text_defs.specs.declared.errors.TraceError.TheVariants.{NoMemory, Syntax};
ghost use Rattle.sat_scan.specs.Scan.{word_at, behind_word_at, token_at, IsAtWord};
ghost use Rattle.sat_values.specs.TraceArrays.{stated_unless};
ghost use Rattle.sat_text.specs.ReadingSteps.{LeadsTo, ReadsClause, spelled_of};

use clause_defs::MAX_INDEX;
use pch_base::Lit;
use sat_scan::{LitWord, Number, is_sign_at, is_zero_at, literal_at, next_word, positive_at};
use sat_text_defs::{MAX_TRACE_BYTES, TraceError};

/// A clause as a text has it: its literals in any order and repeated or not, or the sign `*` in their
/// place; its antecedents by index.
#[derive(Debug, Drop)]
pub struct SpelledClause {
    /// The clause's index.
    pub index: u32,
    /// Whether the sign stands in place of the literals.
    pub sign: bool,
    /// The literals, none where the sign stands.
    pub lits: Vec<Lit>,
    /// The antecedents' indices.
    pub antecedents: Vec<u32>,
}

/// The index that the word at `at` spells, and the place behind it.
fn index_at(text: &[u8], at: usize) -> Result<Number, TraceError>
    requires within { at ≤ length text.now }
    requires short { length text.now ≤ MAX_TRACE_BYTES }
    ensures exact { Gives NoMemory (λ n. n.value) result (index_from (token_at at text.now)) }
    ensures end { IfOk result (λ n. n.end ≡ behind_word_at at text.now) }
    ensures inside { IfOk result (λ n. n.end ≤ length text.now) }
    ensures there { IfOk result (λ n. at < n.end) }
    ensures range { IfOk result (λ n. (1 ≤ n.value) × (n.value ≤ MAX_INDEX)) }
{
    let Some(number) = positive_at(text, at, MAX_INDEX) else {
        return Err(TraceError::Syntax { at: at as u32 });
    };
    Ok(number)
}

/// The literal that the word at `at` spells, and the place behind it.
fn stated_literal_at(text: &[u8], at: usize) -> Result<LitWord, TraceError>
    requires within { at ≤ length text.now }
    requires short { length text.now ≤ MAX_TRACE_BYTES }
    ensures exact { Gives NoMemory (λ w. w.lit) result
        (ok_or (literal_in (word_at at text.now)) (Syntax at)) }
    ensures end { IfOk result (λ w. w.end ≡ behind_word_at at text.now) }
    ensures inside { IfOk result (λ w. w.end ≤ length text.now) }
    ensures there { IfOk result (λ w. at < w.end) }
{
    let Some(word) = literal_at(text, at) else {
        return Err(TraceError::Syntax { at: at as u32 });
    };
    Ok(word)
}

/// Appends the literals from the word at `first` on, up to the word `0`, and answers the place behind it.
fn read_literals(text: &[u8], first: usize, lits: &mut Vec<Lit>) -> Result<usize, TraceError>
    requires stands { IsAtWord first text.now }
    requires short { length text.now ≤ MAX_TRACE_BYTES }
    ensures leads { (v i : ℕ) → LeadsTo v text.now first (among_lits i lits.old.items)
        (among_antecedents i (Some lits.new.items) []) result }
    ensures later { IfOk result (λ next. first < next) }
    ensures inside { IfOk result (λ next. next ≤ length text.now) }
{
    let mut at = first;
    while !is_zero_at(text, at) {
        let word = stated_literal_at(text, at)?;
        lits.push(word.lit)?;
        at = next_word(text, word.end);
    }
    Ok(at + 1)
}

/// Appends the indices from `from` on, up to the word `0`, and answers its place.
fn read_indices(text: &[u8], from: usize, indices: &mut Vec<u32>) -> Result<usize, TraceError>
    requires within { from ≤ length text.now }
    requires short { length text.now ≤ MAX_TRACE_BYTES }
    ensures leads { (v i : ℕ) (stated : Option Lits) → LeadsTo v text.now from
        (among_antecedents i stated indices.old.items)
        (among_antecedents i stated indices.new.items) result }
    ensures zero { IfOk result (λ at. is_zero (word_at at text.now) ≡ true) }
    ensures stands { IfOk result (λ at. IsAtWord at text.now) }
    ensures not_before { IfOk result (λ at. from ≤ at) }
    ensures inside { IfOk result (λ at. at < length text.now) }
    ensures longer { IfOk result (λ _. length indices.old.items ≤ length indices.new.items) }
{
    let mut at = next_word(text, from);
    while !is_zero_at(text, at) {
        let number = index_at(text, at)?;
        indices.push(number.value)?;
        at = next_word(text, number.end);
    }
    Ok(at)
}

/// Whether the word at `at` is the sign, and can stand in a text of this version.
fn has_sign_at(text: &[u8], at: usize, version: u32) -> bool
    requires { at ≤ length text.now }
    ensures sign { result ≡ (has_sign version && is_sign (word_at at text.now)) }
    ensures within { result ≡ true → at < length text.now }
    ensures one_byte { result ≡ true → behind_word_at at text.now ≡ at + 1 }
{
    version != 1 && is_sign_at(text, at)
}

/// Reads the literals and `0`, or the sign and the antecedent behind it, and answers the place behind
/// them. Where the version is 1, no sign can stand.
fn read_stated(
    text: &[u8],
    from: usize,
    version: u32,
    clause: &mut SpelledClause,
) -> Result<usize, TraceError>
    requires within { from ≤ length text.now }
    requires short { length text.now ≤ MAX_TRACE_BYTES }
    requires no_lits { clause.old.lits.items ≡ [] }
    requires no_antecedents { clause.old.antecedents.items ≡ [] }
    ensures leads { (i : ℕ) → LeadsTo version text.now from (behind_index i)
        (among_antecedents i (stated_unless clause.new.sign clause.new.lits.items)
        clause.new.antecedents.items) result }
    ensures derived { IfOk result
        (λ _. clause.new.sign ≡ true → 0 < length clause.new.antecedents.items) }
    ensures index { clause.new.index ≡ clause.old.index }
    ensures not_before { IfOk result (λ next. from ≤ next) }
    ensures inside { IfOk result (λ next. next ≤ length text.now) }
{
    let at = next_word(text, from);
    clause.sign = has_sign_at(text, at, version);
    if !clause.sign {
        return read_literals(text, at, &mut clause.lits);
    }
    let antecedent = index_at(text, next_word(text, at + 1))?;
    clause.antecedents.push(antecedent.value)?;
    Ok(antecedent.end)
}

/// Reads the clause whose index is the word at `at` in place of the one that is there, and answers the
/// place behind it. Where the version is 1, no sign can stand.
pub fn read_clause(
    text: &[u8],
    at: usize,
    version: u32,
    clause: &mut SpelledClause,
) -> Result<usize, TraceError>
    requires within { at < length text.now }
    requires stands { IsAtWord at text.now }
    requires short { length text.now ≤ MAX_TRACE_BYTES }
    ensures reads { ReadsClause version text.now at (spelled_of clause.new) result }
    ensures index { IfOk result (λ _. (1 ≤ clause.new.index) × (clause.new.index ≤ MAX_INDEX)) }
    ensures derived { IfOk result
        (λ _. clause.new.sign ≡ true → 0 < length clause.new.antecedents.items) }
    ensures later { IfOk result (λ next. at < next) }
    ensures inside { IfOk result (λ next. next ≤ length text.now) }
{
    let index = index_at(text, at)?;
    clause.index = index.value;
    clause.lits.clear();
    clause.antecedents.clear();
    let behind_stated = read_stated(text, index.end, version, clause)?;
    let zero = read_indices(text, behind_stated, &mut clause.antecedents)?;
    Ok(zero + 1)
}
