//! Gates over any number of terms, as cells that join at most four each.

ghost use Rattle.std.specs.Prelude.{◌≡◌, ◌-◌, ◌*◌, ◌≤◌, ◌<◌, ◌++◌, length, OnOk, IfOk};
ghost use Rattle.map_defs.specs.declared.limits.TheConstants.{GROUP};
ghost use Rattle.map_defs.specs.Gates.{group, group_cells, group_term, round_cells, round_terms, gate_cells};
ghost use Rattle.lut_map.specs.declared.made.TheConstants.{MAX_CELLS};

use crate::made::Made;
use extract::Source;
use map_defs::{GROUP, Gate, Term};
use pch_base::NoMemory;

/// The term that a group becomes; a group of one stays as it is, and any other becomes the cell with
/// this number.
fn push_group(cells: &mut Made, gate: Gate, number: u32, group: &[Term]) -> Result<Term, NoMemory>
    requires { length group.now ≤ GROUP }
    ensures cells { OnOk result (cells.new ≡ cells.old ++ group_cells gate group.now) }
    ensures term { IfOk result (λ term. term ≡ group_term number group.now) }
{
    if group.len() == 1 {
        return Ok(group[0]);
    }
    cells.push_gate(gate, false, group)?;
    Ok(Term {
        source: Source::Cell(number),
        positive: true,
    })
}

/// Group `i` of the terms from the left.
fn group_of(terms: &[Term], i: usize) -> &[Term]
    requires { GROUP * i ≤ length terms.now }
    ensures { result.now ≡ group terms.now i }
{
    let size = GROUP as usize;
    let rest = &terms[size * i..];
    &rest[..size.min(rest.len())]
}

/// One round: the cells of all groups, and in `left` the terms that the groups become. Cells are
/// counted from the one with the number `first`.
fn push_round(
    cells: &mut Made,
    gate: Gate,
    first: u32,
    terms: &[Term],
    left: &mut Vec<Term>,
) -> Result<(), NoMemory>
    requires first { first ≤ length cells.old }
    requires few { length terms.now ≤ MAX_CELLS }
    ensures cells { OnOk result (cells.new ≡ cells.old ++ round_cells gate terms.now) }
    ensures left { OnOk result (left.new.items ≡ round_terms (length cells.old - first) terms.now) }
{
    let next = cells.len() - first;
    let size = GROUP as usize;
    let count = (terms.len() + (size - 1)) / size;
    left.clear();
    for i in 0..count {
        let group = group_of(terms, i);
        let term = push_group(cells, gate, next + i as u32, group)?;
        left.push(term)?;
    }
    Ok(())
}

/// The cells that join these terms, negated or not. Cells are counted from the one with the number
/// `first`. `left` is room for the terms of a round.
pub(crate) fn push_gates(
    cells: &mut Made,
    gate: Gate,
    negated: bool,
    first: u32,
    terms: &mut Vec<Term>,
    left: &mut Vec<Term>,
) -> Result<(), NoMemory>
    requires first { first ≤ length cells.old }
    requires few { length terms.old.items ≤ MAX_CELLS }
    ensures cells { OnOk result (cells.new ≡ cells.old
        ++ gate_cells gate negated (length cells.old - first) terms.old.items) }
    ensures more { OnOk result (length cells.old < length cells.new) }
    ensures few { OnOk result (length cells.new ≤ MAX_CELLS) }
{
    while terms.len() > GROUP as usize {
        push_round(cells, gate, first, terms, left)?;
        std::mem::swap(terms, left);
    }
    cells.push_gate(gate, negated, terms)?;
    Ok(())
}
