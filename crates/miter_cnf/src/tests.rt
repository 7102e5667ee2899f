use crate::{fits_pads, miter_clauses};
use blif_read::read_blif;
use extract::extract;
use fabric::{Config, Geometry};
use netlist::build;
use pch_base::Lit;
use sat_values::Cnf;
use std::alloc::Global;
use std::test::Fail;

const INVERTER: &[u8] = b".inputs a\n.outputs y\n.names a y\n0 1\n.end\n";

/// One cell of four inputs, which negates the one input pad.
const FOUR_INPUTS: [u16; 8] = [1, 1, 0, 0, 0, 0x5555, 2, 1];

/// One cell of six inputs, which negates the one input pad.
const SIX_INPUTS: [u16; 13] = [1, 1, 0, 0, 0, 0, 0, 0x5555, 0x5555, 0x5555, 0x5555, 2, 1];

/// The clauses before those of the cell.
const HEAD: [&[i32]; 5] = [&[-1], &[-2, -4], &[2, 4], &[-3, 4], &[3, -4]];

/// The first clauses of the cell, and then the last one.
const TABLE: [&[i32]; 4] = [&[1, 2, 5], &[1, -2, -5], &[-1, 1, 2, 5], &[-1, 1, -2, -5]];

/// The last clause of the cell, and those behind it.
const TAIL: [&[i32]; 6] = [
    &[-1, -2, -5],
    &[3, 5, -6],
    &[-3, -5, -6],
    &[-3, 5, 6],
    &[3, -5, 6],
    &[6],
];

/// The clauses of the miter of an inverter and one cell.
fn clauses_of(alloc: Global, g: Geometry, words: &[u16]) -> Result<Cnf, Fail> {
    let net = build(alloc, &read_blif(alloc, INVERTER)?)?;
    let cells = extract(alloc, &Config::new(g, words.to_vec(alloc)?)?)?;
    if !fits_pads(&net, cells.geometry()) {
        return Err("there are too few pads")?;
    }
    Ok(miter_clauses(alloc, &net, &cells)?)
}

/// Whether the clause has these literals, by the numbers that a text writes.
fn is_clause(lits: &[Lit], numbers: &[i32]) -> bool {
    lits.len() == numbers.len() && lits.iter().zip(numbers).all(|(l, n)| l.value() == *n)
}

/// Whether these clauses follow one another from number `first` on, counted from 0.
fn has_clauses(cnf: &Cnf, first: u32, due: &[&[i32]]) -> bool {
    let mut k = first;
    for numbers in due {
        if k >= cnf.clauses.len() || !is_clause(cnf.clauses.clause(k), numbers) {
            return false;
        }
        k += 1;
    }
    true
}

/// Whether there are six variables and so many clauses, of which those at both ends are right.
fn is_miter(cnf: &Cnf, count: u32) -> bool {
    cnf.variables == 6
        && cnf.clauses.len() == count
        && has_clauses(cnf, 0, &HEAD)
        && has_clauses(cnf, 5, &TABLE)
        && has_clauses(cnf, count.saturating_sub(6), &TAIL)
}

#[test]
fn an_inverter_has_a_clause_for_each_bit_of_a_table(rt: HostRuntime) -> Result<(), Fail> {
    let alloc = rt.alloc();
    let four = Geometry::new(1, 1, 1, 1, 1).ok_or("a geometry")?;
    assert!(rt; is_miter(&clauses_of(alloc, four, &FOUR_INPUTS)?, 26));
    assert!(rt; is_miter(&clauses_of(alloc, four.six(), &SIX_INPUTS)?, 74));
    Ok(())
}
