//! The values of the rows of a node.

ghost use Rattle.std.specs.Prelude.{◌≡◌, ℕ, ◌+◌, ◌<◌, ◌≤◌, [], ◌∷◌, length, All, IfSome, IfNone};
ghost use Rattle.blif_defs.specs.declared.mark.TheConstants.{MAX_PORTS};
ghost use Rattle.clause_defs.specs.Clauses.{Has};
ghost use Rattle.net_defs.specs.Networks.{node_at, signals};
ghost use Rattle.miter_defs.specs.Numberings.{row_variable, variable_count};
ghost use Rattle.miter_defs.specs.Miters.{mark_literals, row_literals};
ghost use Rattle.leaf_defs.specs.Evaluated.{value_of};
ghost use Rattle.miter_places.specs.Places.{first_of_row, first_of_cover};
ghost use Rattle.miter_values.specs.Growing.{Grows};
ghost use Rattle.miter_values.specs.Parts.{circuits_of, IsValued, AreKnown, IsRowValue, IsRowOf, IsHit, later};

use crate::values::MiterValues;
use blif_read::Mark;
use leaf_chain::Evaluation;
use miter_places::asked;
use pch_base::Lit;

/// Whether a row hits, and how many literals it asks up to the first one that is false, or in all.
#[derive(Clone, Copy)]
struct RowValue {
    hits: bool,
    asked: u32,
}

/// Whether a row hits, and the number of the first clause behind its own.
#[derive(Clone, Copy)]
struct Row {
    hits: bool,
    next: u32,
}

/// A row that hits, if one does, and the number of the first clause behind those of the rows.
#[derive(Clone, Copy)]
pub(crate) struct Rows {
    pub(crate) hit: Option<u32>,
    pub(crate) next: u32,
}

/// The later one of the rows that hit, where `r` is the next.
fn later(hit: Option<u32>, r: u32, hits: bool) -> Option<u32>
    ensures { result ≡ later hit r hits }
{
    if hits { Some(r) } else { hit }
}

impl<'a> MiterValues<'a> {
    /// What a mark asks of the signal under it.
    fn asked(&self, mark: Mark, s: u32) -> Option<Lit>
        requires { s < signals self.now.net }
        ensures some { IfSome result (λ l. mark_literals mark s ≡ l ∷ []) }
        ensures none { IfNone result (mark_literals mark s ≡ []) }
    {
        match mark {
            Mark::Zero => Some(Lit::from_parts(self.signal(s), false)),
            Mark::One => Some(Lit::from_parts(self.signal(s), true)),
            Mark::Any => None,
        }
    }

    /// Whether all that a row asks is so.
    fn row_value(&self, marks: &[Mark], fan_ins: &[u32], e: &Evaluation) -> RowValue
        requires width { length marks.now ≡ length fan_ins.now }
        requires few { length fan_ins.now ≤ MAX_PORTS }
        requires within { All (λ s. s < signals self.now.net) fan_ins.now }
        requires known { AreKnown e.now fan_ins.now }
        requires places { length e.now.values ≡ variable_count self.now.net self.now.cells + 1 }
        ensures { IsRowValue e.now (row_literals marks.now fan_ins.now) result.hits result.asked }
    {
        let mut asked = 0;
        for (i, mark) in marks.iter().enumerate() {
            let Some(l) = self.asked(*mark, fan_ins[i]) else {
                continue;
            };
            if e.value(l.variable()) != l.is_positive() {
                return RowValue { hits: false, asked };
            }
            asked += 1;
        }
        RowValue { hits: true, asked }
    }

    /// Gives row `r` of node `v`, whose first clause has this number, its value.
    fn evaluate_row(&self, v: u32, r: u32, number: u32, e: &mut Evaluation) -> Row
        requires node { v < length self.now.net.nodes }
        requires row { r < length (node_at self.now.net v).rows }
        requires number { number ≡ first_of_row self.now.net v r }
        requires valued { IsValued self.now e.old }
        requires known { AreKnown e.old (node_at self.now.net v).fan_ins }
        requires fresh { Has e.old.order (row_variable self.now.net v r) → ⊥ }
        ensures grows { Grows (circuits_of self.now.net self.now.cells) e.old e.new
            (λ u. u ≡ row_variable self.now.net v r) }
        ensures value { value_of e.new.values (row_variable self.now.net v r) ≡ result.hits }
        ensures next { result.next ≡ first_of_row self.now.net v (r + 1) }
    {
        let rows = self.net.node_rows(v);
        let row = &rows[r as usize];
        let marks = row.marks();
        let numbering = &self.numbering;
        let value = self.row_value(marks, self.net.fan_ins(v), e);
        e.imply(numbering.row(v, r), value.hits, number + value.asked);
        Row {
            hits: value.hits,
            next: number + asked(marks) + 1,
        }
    }

    /// Gives the rows of node `v` their values.
    pub(crate) fn evaluate_rows(&self, v: u32, e: &mut Evaluation) -> Rows
        requires node { v < length self.now.net.nodes }
        requires valued { IsValued self.now e.old }
        requires known { AreKnown e.old (node_at self.now.net v).fan_ins }
        requires fresh { (u : ℕ) → Has e.old.order u
            → IsRowOf self.now.net v (length (node_at self.now.net v).rows) u → ⊥ }
        ensures grows { Grows (circuits_of self.now.net self.now.cells) e.old e.new
            (IsRowOf self.now.net v (length (node_at self.now.net v).rows)) }
        ensures hit { IsHit self.now.net v e.new (length (node_at self.now.net v).rows) result.hit }
        ensures next { result.next ≡ first_of_cover self.now.net v }
    {
        let mut number = self.places.node(v);
        let mut hit = None;
        for r in 0..self.net.node_rows(v).len() as u32 {
            let row = self.evaluate_row(v, r, number, e);
            number = row.next;
            hit = later(hit, r, row.hits);
        }
        Rows { hit, next: number }
    }
}
