ghost use Rattle.std.specs.Prelude.{◌≡◌, ◌<◌, ◌++◌, List, [], ◌∷◌, length, map, All, not, IfSome, IfNone, OnOk};
ghost use Rattle.clause_defs.specs.Literals.{Literal, negation};
ghost use Rattle.net_defs.specs.Networks.{node_at, signals};
ghost use Rattle.fabric_defs.specs.Numbered.{list_of, joined};
ghost use Rattle.miter_defs.specs.Numberings.{node_variable, row_variable};
ghost use Rattle.miter_defs.specs.Miters.{literal, positive, negative, mark_literals, row_literals, hit_clauses, row_at, node_clauses};
ghost use Rattle.miter_cnf.specs.Writing.{Adds};

use crate::circuits::{Circuits, signed};
use crate::writer::Writer;
use blif_read::Mark;
use pch_base::{Lit, NoMemory};

impl<'a> Circuits<'a> {
    /// What a mark asks of the signal under it.
    fn asked(&self, mark: Mark, s: u32) -> Option<Lit>
        requires { s < signals self.now.net }
        ensures some { IfSome result (λ l. mark_literals mark s ≡ l ∷ []) }
        ensures none { IfNone result (mark_literals mark s ≡ []) }
    {
        match mark {
            Mark::Zero => Some(self.signal(s).negated()),
            Mark::One => Some(self.signal(s)),
            Mark::Any => None,
        }
    }

    /// Writes that what a mark asks is so where the row hits.
    fn write_mark(&self, hit: Lit, mark: Mark, s: u32, w: &mut Writer) -> Result<(), NoMemory>
        requires { s < signals self.now.net }
        ensures { OnOk result (Adds w.old.clauses
            (map (λ l. negation hit ∷ l ∷ []) (mark_literals mark s))
            w.new.clauses) }
    {
        match self.asked(mark, s) {
            Some(l) => w.write(&[hit.negated(), l]),
            None => Ok(()),
        }
    }

    /// Writes that all that a row asks is so where the row hits.
    fn write_marks(
        &self,
        hit: Lit,
        row: &[Mark],
        fan_ins: &[u32],
        w: &mut Writer,
    ) -> Result<(), NoMemory>
        requires marks { length row.now ≡ length fan_ins.now }
        requires within { All (λ s. s < signals self.now.net) fan_ins.now }
        ensures { OnOk result (Adds w.old.clauses
            (map (λ l. negation hit ∷ l ∷ []) (row_literals row.now fan_ins.now))
            w.new.clauses) }
    {
        for (i, mark) in row.iter().enumerate() {
            self.write_mark(hit, *mark, fan_ins[i], w)?;
        }
        Ok(())
    }

    /// Adds the negation of what a mark asks.
    fn add_mark(&self, mark: Mark, s: u32, w: &mut Writer) -> Result<(), NoMemory>
        requires { s < signals self.now.net }
        ensures clauses { OnOk result (w.new.clauses ≡ w.old.clauses) }
        ensures literals { OnOk result (w.new.literals.items
            ≡ w.old.literals.items ++ map negation (mark_literals mark s)) }
    {
        match self.asked(mark, s) {
            Some(l) => w.add(l.negated()),
            None => Ok(()),
        }
    }

    /// Adds the negations of all that a row asks.
    fn add_marks(&self, row: &[Mark], fan_ins: &[u32], w: &mut Writer) -> Result<(), NoMemory>
        requires marks { length row.now ≡ length fan_ins.now }
        requires within { All (λ s. s < signals self.now.net) fan_ins.now }
        ensures clauses { OnOk result (w.new.clauses ≡ w.old.clauses) }
        ensures literals { OnOk result (w.new.literals.items
            ≡ w.old.literals.items ++ map negation (row_literals row.now fan_ins.now)) }
    {
        for (i, mark) in row.iter().enumerate() {
            self.add_mark(*mark, fan_ins[i], w)?;
        }
        Ok(())
    }

    /// Writes that row `r` of node `v` hits exactly where all that it asks is so.
    fn write_row(&self, v: u32, r: u32, w: &mut Writer) -> Result<(), NoMemory>
        requires node { v < length self.now.net.nodes }
        requires row { r < length (node_at self.now.net v).rows }
        ensures { OnOk result (Adds w.old.clauses
            (hit_clauses (row_variable self.now.net v r)
            (row_literals (row_at self.now.net v r) (node_at self.now.net v).fan_ins))
            w.new.clauses) }
    {
        let net = self.net;
        let rows = net.node_rows(v);
        let row = &rows[r as usize];
        let marks = row.marks();
        let fan_ins = net.fan_ins(v);
        let hit = self.row(v, r);
        self.write_marks(hit, marks, fan_ins, w)?;
        w.begin();
        w.add(hit)?;
        self.add_marks(marks, fan_ins, w)?;
        w.end()
    }

    /// Writes the rows of node `v`.
    fn write_rows(&self, v: u32, w: &mut Writer) -> Result<(), NoMemory>
        requires { v < length self.now.net.nodes }
        ensures { OnOk result (Adds w.old.clauses
            (joined (length (node_at self.now.net v).rows)
            (λ r. hit_clauses (row_variable self.now.net v r)
            (row_literals (row_at self.now.net v r) (node_at self.now.net v).fan_ins)))
            w.new.clauses) }
    {
        for r in 0..self.rows(v) {
            self.write_row(v, r, w)?;
        }
        Ok(())
    }

    /// Writes that some row of node `v` hits where the node has its sign.
    fn write_cover(&self, v: u32, w: &mut Writer) -> Result<(), NoMemory>
        requires { v < length self.now.net.nodes }
        ensures { OnOk result (Adds w.old.clauses
            ((literal (node_variable self.now.net v) (not (node_at self.now.net v).on)
            ∷ map positive (list_of
            (length (node_at self.now.net v).rows)
            (row_variable self.now.net v))) ∷ [])
            w.new.clauses) }
    {
        let net = self.net;
        w.begin();
        w.add(signed(self.node(v), !net.on(v)))?;
        for r in 0..self.rows(v) {
            w.add(self.row(v, r))?;
        }
        w.end()
    }

    /// Writes that node `v` has its sign where a row hits.
    fn write_hits(&self, v: u32, w: &mut Writer) -> Result<(), NoMemory>
        requires { v < length self.now.net.nodes }
        ensures { OnOk result (Adds w.old.clauses
            (map
            (λ hit. literal (node_variable self.now.net v) (node_at self.now.net v).on
            ∷ negative hit ∷ [])
            (list_of (length (node_at self.now.net v).rows) (row_variable self.now.net v)))
            w.new.clauses) }
    {
        let net = self.net;
        let node = signed(self.node(v), net.on(v));
        for r in 0..self.rows(v) {
            w.write(&[node, self.row(v, r).negated()])?;
        }
        Ok(())
    }

    /// Writes the rows of node `v`, and then the node.
    fn write_node(&self, v: u32, w: &mut Writer) -> Result<(), NoMemory>
        requires { v < length self.now.net.nodes }
        ensures { OnOk result (Adds w.old.clauses (node_clauses self.now.net v) w.new.clauses) }
    {
        self.write_rows(v, w)?;
        self.write_cover(v, w)?;
        self.write_hits(v, w)
    }

    /// Writes the nodes.
    pub(crate) fn write_nodes(&self, w: &mut Writer) -> Result<(), NoMemory>
        ensures { OnOk result (Adds w.old.clauses
            (joined (length self.now.net.nodes) (node_clauses self.now.net))
            w.new.clauses) }
    {
        let net = self.net;
        for v in 0..net.nodes() {
            self.write_node(v, w)?;
        }
        Ok(())
    }
}
