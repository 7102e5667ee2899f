//! The tables of nodes and of gates, bit by bit: bit k is the value where pin j has bit j of k.

ghost use Rattle.std.specs.Prelude.{◌≡◌, ℕ, ◌≤◌, [], length, All, if◌then◌else◌};
ghost use Rattle.std.specs.List.{list_any};
ghost use Rattle.fabric_defs.specs.declared.limits.TheConstants.{MAX_PINS};
ghost use Rattle.pch_base.specs.BitLists.{bits_of};
ghost use Rattle.net_defs.specs.Evaluation.{allows, hits, node_bit};
ghost use Rattle.map_defs.specs.Tables.{table_of};
ghost use Rattle.map_defs.specs.Gates.{is_true, all_true, some_true, joins, gate_cell};
ghost use Rattle.lut_map.specs.Steps.{gate_bit};

use blif_read::{Mark, Row};
use map_defs::{Gate, TABLE_BITS, Term};
use pch_base::Bits;

/// The first bits of a number, as many as there are pins.
fn pattern(k: u32, pins: u32) -> Bits
    requires { pins ≤ MAX_PINS }
    ensures { result ≡ bits_of pins k }
{
    Bits::new(u64::from(k) % (1u64 << pins), pins)
}

/// Whether the mark may stand over the bit.
fn is_allowed(mark: Mark, bit: bool) -> bool
    ensures { result ≡ allows mark (if bit then 1 else 0) }
{
    match mark {
        Mark::Zero => !bit,
        Mark::One => bit,
        Mark::Any => true,
    }
}

/// Whether the row hits these bits.
fn row_hits(row: &[Mark], bits: Bits) -> bool
    requires { length row.now ≡ length bits }
    ensures { result ≡ hits row.now bits }
{
    for (i, mark) in row.iter().enumerate() {
        if !is_allowed(*mark, bits.get(i as u32)) {
            return false;
        }
    }
    true
}

/// Whether some row hits these bits.
fn some_row_hits(rows: &[Row], bits: Bits) -> bool
    requires { All (λ row. length row ≡ length bits) rows.now }
    ensures { result ≡ list_any (λ row. hits row bits) rows.now }
{
    for row in rows {
        if row_hits(row.marks(), bits) {
            return true;
        }
    }
    false
}

/// Whether the bit of the node is 1.
fn node_bit(rows: &[Row], on: bool, bits: Bits) -> bool
    requires { All (λ row. length row ≡ length bits) rows.now }
    ensures { node_bit (record { fan_ins = []; on = on; rows = rows.now }) bits
        ≡ (if result then 1 else 0) }
{
    some_row_hits(rows, bits) == on
}

/// The table of a node with so many fan-ins.
pub(crate) fn node_table(rows: &[Row], on: bool, pins: u32) -> u64
    requires few { pins ≤ MAX_PINS }
    requires rows { All (λ row. length row ≡ pins) rows.now }
    ensures { result
        ≡ table_of pins (node_bit (record { fan_ins = []; on = on; rows = rows.now })) }
{
    let mut table = Bits::new(0, TABLE_BITS);
    for k in 0..TABLE_BITS {
        let bit = node_bit(rows, on, pattern(k, pins));
        table = table.with(k, bit);
    }
    table.word()
}

/// Whether the term is true where its source has the bit.
fn is_true(term: Term, bit: bool) -> bool
    ensures { result ≡ is_true term (if bit then 1 else 0) }
{
    term.positive == bit
}

/// Whether all terms are true where their sources have these bits.
fn all_true(terms: &[Term], bits: Bits) -> bool
    requires { length terms.now ≡ length bits }
    ensures { result ≡ all_true terms.now bits }
{
    for (i, term) in terms.iter().enumerate() {
        if !is_true(*term, bits.get(i as u32)) {
            return false;
        }
    }
    true
}

/// Whether some term is true where their sources have these bits.
fn some_true(terms: &[Term], bits: Bits) -> bool
    requires { length terms.now ≡ length bits }
    ensures { result ≡ some_true terms.now bits }
{
    for (i, term) in terms.iter().enumerate() {
        if is_true(*term, bits.get(i as u32)) {
            return true;
        }
    }
    false
}

/// What the gate says of its terms where their sources have these bits.
fn joins(gate: Gate, terms: &[Term], bits: Bits) -> bool
    requires { length terms.now ≡ length bits }
    ensures { result ≡ joins gate terms.now bits }
{
    match gate {
        Gate::Conjunction => all_true(terms, bits),
        Gate::Disjunction => some_true(terms, bits),
    }
}

/// Whether the bit of the gate is 1.
fn gate_bit(gate: Gate, negated: bool, terms: &[Term], bits: Bits) -> bool
    requires { length terms.now ≡ length bits }
    ensures { gate_bit gate negated terms.now bits ≡ (if result then 1 else 0) }
{
    joins(gate, terms, bits) != negated
}

/// The table of the cell that joins these terms, negated or not.
pub(crate) fn gate_table(gate: Gate, negated: bool, terms: &[Term]) -> u64
    requires { length terms.now ≤ MAX_PINS }
    ensures { result ≡ (gate_cell gate negated terms.now).table }
{
    let mut table = Bits::new(0, TABLE_BITS);
    for k in 0..TABLE_BITS {
        let bit = gate_bit(gate, negated, terms, pattern(k, terms.len() as u32));
        table = table.with(k, bit);
    }
    table.word()
}
