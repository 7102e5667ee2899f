//! The values of the net's nodes.

ghost use Rattle.std.specs.Prelude.{◌≡◌, ℕ, ◌+◌, ◌^◌, ◌<◌, length};
ghost use Rattle.clause_defs.specs.Clauses.{Has};
ghost use Rattle.net_defs.specs.Networks.{node_at};
ghost use Rattle.miter_defs.specs.Numberings.{signal_variable};
ghost use Rattle.miter_values.specs.Growing.{Grows};
ghost use Rattle.miter_values.specs.Parts.{circuits_of, IsValued, AreKnown, IsOfNode, IsOfSomeNode, cover_place, node_value};

use crate::values::MiterValues;
use leaf_chain::Evaluation;

/// Which of the clauses of a node gives it its value: the first where no row hits, else that of the row.
fn place_of(hit: Option<u32>) -> u32
    requires { cover_place hit < 2 ^ 32 }
    ensures { result ≡ cover_place hit }
{
    match hit {
        Some(r) => r + 1,
        None => 0,
    }
}

/// The value of a node with this sign, where this row hits, or none does.
fn node_value(on: bool, hit: Option<u32>) -> bool
    ensures { result ≡ node_value on hit }
{
    match hit {
        Some(_) => on,
        None => !on,
    }
}

impl<'a> MiterValues<'a> {
    /// Gives node `v` and its rows their values: the node has its sign where a row hits.
    pub(crate) fn evaluate_node(&self, v: u32, e: &mut Evaluation)
        requires node { v < length self.now.net.nodes }
        requires valued { IsValued self.now e.old }
        requires known { AreKnown e.old (node_at self.now.net v).fan_ins }
        requires fresh { (u : ℕ) → Has e.old.order u → IsOfNode self.now.net v u → ⊥ }
        ensures { Grows (circuits_of self.now.net self.now.cells) e.old e.new (IsOfNode self.now.net v) }
    {
        let rows = self.evaluate_rows(v, e);
        let numbering = &self.numbering;
        let value = node_value(self.net.on(v), rows.hit);
        e.imply(numbering.node(v), value, rows.next + place_of(rows.hit));
    }

    /// Gives all nodes and rows their values, where the inputs have theirs.
    pub(crate) fn evaluate_nodes(&self, e: &mut Evaluation)
        requires valued { IsValued self.now e.old }
        requires inputs { (i : ℕ) → i < length self.now.net.inputs → Has e.old.order (signal_variable i) }
        requires fresh { (u : ℕ) → Has e.old.order u → u < 2 + length self.now.net.inputs }
        ensures { Grows (circuits_of self.now.net self.now.cells) e.old e.new (IsOfSomeNode self.now.net) }
    {
        for v in self.net.order() {
            self.evaluate_node(*v, e);
        }
    }
}
