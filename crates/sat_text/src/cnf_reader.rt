ghost use Rattle.std.specs.Prelude.{◌≡◌, ◌≤◌, length, drop};
ghost use Rattle.sat_text_defs.specs.CnfText.{tokens_of, line_end};
ghost use Rattle.sat_text_defs.specs.CnfReading.{cnf_in, cnf_from};
ghost use Rattle.sat_scan.specs.Scan.{cnf_tokens_from, IsAtCnfWord};
ghost use Rattle.text_defs.specs.Memory.{Gives};
ghost use Rattle.sat_text_defs.specs.declared.errors.CnfError.TheVariants.{NoMemory};
ghost use Rattle.sat_values.specs.CnfFormula.{formula_of};

use crate::cnf_clauses::read_clauses;
use crate::cnf_header::read_header;
use sat_scan::{behind_comment, next_cnf_word};
use sat_text_defs::{CnfError, MAX_CNF_BYTES};
use sat_values::{Clauses, Cnf};
use std::alloc::Global;

/// The place of the first word of a CNF, or the end of the text.
fn first_word(text: &[u8]) -> usize
    ensures stands { IsAtCnfWord result text.now }
    ensures tokens { tokens_of text.now ≡ cnf_tokens_from result text.now }
{
    next_cnf_word(text, behind_comment(text, 0))
}

/// Reads a CNF whose first word begins at `first`.
fn read_from(alloc: Global, text: &[u8], first: usize) -> Result<Cnf, CnfError>
    requires stands { IsAtCnfWord first text.now }
    requires short { length text.now ≤ MAX_CNF_BYTES }
    ensures exact { Gives NoMemory formula_of result
        (cnf_from (length text.now) (line_end first (drop first text.now))
        (cnf_tokens_from first text.now)) }
{
    let header = read_header(text, first)?;
    let mut clauses = Clauses::new(alloc);
    // Seldom is each fourth byte the first one of a literal, or each eighth that of a clause.
    clauses.make_room(text.len() / 8, text.len() / 4);
    read_clauses(alloc, text, header.rest, header.variables, &mut clauses)?;
    if clauses.len() != header.clauses {
        return Err(CnfError::Count {
            said: header.clauses,
            found: clauses.len(),
        });
    }
    Ok(Cnf {
        variables: header.variables,
        clauses,
    })
}

/// Reads a CNF: its value, or its one fault.
pub fn read_cnf(alloc: Global, b: &[u8]) -> Result<Cnf, CnfError>
    ensures exact { Gives NoMemory formula_of result (cnf_in b.now) }
{
    if b.len() > MAX_CNF_BYTES as usize {
        return Err(CnfError::TooLong);
    }
    read_from(alloc, b, first_word(b))
}
