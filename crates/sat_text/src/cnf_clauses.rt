ghost use Rattle.std.specs.Prelude.{◌≡◌, ◌<◌, ◌≤◌, [], length, IfOk};
ghost use Rattle.sat_text_defs.specs.CnfReading.{literal_within, clauses_from};
ghost use Rattle.sat_scan.specs.Scan.{token_at, behind_word_at, cnf_tokens_from};
ghost use Rattle.text_defs.specs.Memory.{Gives};
ghost use Rattle.sat_text_defs.specs.declared.errors.CnfError.TheVariants.{NoMemory};

use crate::literal_order::order_clause;
use sat_scan::{LitWord, is_zero_at, literal_at, next_cnf_word};
use sat_text_defs::{CnfError, MAX_CNF_BYTES};
use sat_values::Clauses;
use std::alloc::Global;

/// The literal that the word at `at` spells, over this many variables.
fn read_literal(text: &[u8], at: usize, variables: u32) -> Result<LitWord, CnfError>
    requires within { at < length text.now }
    requires short { length text.now ≤ MAX_CNF_BYTES }
    ensures exact { Gives NoMemory (λ w. w.lit) result
        (literal_within variables (token_at at text.now)) }
    ensures end { IfOk result (λ w. w.end ≡ behind_word_at at text.now) }
    ensures within { IfOk result (λ w. w.end ≤ length text.now) }
    ensures later { IfOk result (λ w. at < w.end) }
{
    let Some(word) = literal_at(text, at) else {
        return Err(CnfError::Syntax { at: at as u32 });
    };
    if word.lit.variable() > variables {
        return Err(CnfError::VarRange { at: at as u32 });
    }
    Ok(word)
}

/// Appends the clauses from `from` on to the end of the text, over this many variables.
pub fn read_clauses(
    alloc: Global,
    text: &[u8],
    from: usize,
    variables: u32,
    clauses: &mut Clauses,
) -> Result<(), CnfError>
    requires within { from ≤ length text.now }
    requires short { length text.now ≤ MAX_CNF_BYTES }
    ensures exact { Gives NoMemory (λ _. clauses.new) result
        (clauses_from variables (length text.now) (cnf_tokens_from from text.now) clauses.old []) }
{
    let mut lits = Vec::new(alloc);
    let mut at = next_cnf_word(text, from);
    while at < text.len() {
        if is_zero_at(text, at) {
            order_clause(&mut lits);
            clauses.push_lits(&lits)?;
            lits.clear();
            at = next_cnf_word(text, at + 1);
        } else {
            let word = read_literal(text, at, variables)?;
            lits.push(word.lit)?;
            at = next_cnf_word(text, word.end);
        }
    }
    if !lits.is_empty() {
        return Err(CnfError::Syntax { at: at as u32 });
    }
    Ok(())
}
