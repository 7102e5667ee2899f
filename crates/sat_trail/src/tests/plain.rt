//! A plain, slow program for the values that clauses imply: it looks at all clauses again and again.

use pch_base::{Lit, NoMemory};
use sat_values::Clauses;
use std::alloc::Global;

/// How many variables there are.
pub const VARIABLES: u32 = 5;

/// What follows from decisions: which literals are true, by their codes, or None after a conflict.
pub fn consequences(
    alloc: Global,
    clauses: &Clauses,
    decisions: &[Lit],
) -> Result<Option<Vec<bool>>, NoMemory> {
    let mut truths = vec![in alloc; false; 2 * VARIABLES as usize + 2]?;
    for &l in decisions {
        make_true(&mut truths, l);
    }
    // each pass but the last one makes a literal true
    for _ in 0..VARIABLES + 1 {
        if !pass(clauses, &mut truths) {
            return Ok(None);
        }
    }
    Ok(Some(truths))
}

/// Whether the literal is true.
pub fn is_true(truths: &[bool], l: Lit) -> bool {
    let code = l.code() as usize;
    code < truths.len() && truths[code]
}

fn make_true(truths: &mut Vec<bool>, l: Lit) {
    let code = l.code() as usize;
    if code < truths.len() {
        truths[code] = true;
    }
}

// Looks at each clause once; false where one is in conflict.
fn pass(clauses: &Clauses, truths: &mut Vec<bool>) -> bool {
    for k in 0..clauses.len() {
        if !look(clauses.clause(k), truths) {
            return false;
        }
    }
    true
}

// Makes the only literal true that isn't false; false where there is none.
fn look(lits: &[Lit], truths: &mut Vec<bool>) -> bool {
    let mut open = None;
    for &l in lits {
        if is_true(truths, l.negated()) {
            continue;
        }
        if open.is_some() {
            return true;
        }
        open = Some(l);
    }
    match open {
        Some(l) => {
            make_true(truths, l);
            true
        }
        None => false,
    }
}
