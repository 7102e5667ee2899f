//! The values of all variables, from those of the inputs on.

ghost use Rattle.std.specs.Prelude.{◌≡◌, ℕ, ◌+◌, ◌<◌, length, IfSome, IfNone};
ghost use Rattle.clause_defs.specs.Clauses.{Has};
ghost use Rattle.leaf_defs.specs.Evaluated.{Evaluated};
ghost use Rattle.miter_defs.specs.Numberings.{zero_variable, variable_count};
ghost use Rattle.miter_values.specs.Growing.{Grows};
ghost use Rattle.miter_values.specs.Parts.{circuits_of, IsValued, AreChosen, HasInputs, IsSameAt, IsOtherAt};

use crate::parts::ZERO_VARIABLE;
use crate::values::MiterValues;
use leaf_chain::Evaluation;
use pch_base::Bits;

/// The clause that says of one variable that it is false.
const ZERO_CLAUSE: u32 = 1;

impl<'a> MiterValues<'a> {
    /// Chooses the bits `x` of the inputs.
    fn choose_inputs(&self, x: Bits, e: &mut Evaluation)
        requires width { length x ≡ length self.now.net.inputs }
        requires places { length e.old.values ≡ variable_count self.now.net self.now.cells + 1 }
        ensures chosen { AreChosen (circuits_of self.now.net self.now.cells) x (length self.now.net.inputs) e.new }
        ensures places { length e.new.values ≡ length e.old.values }
    {
        e.clear();
        let numbering = &self.numbering;
        for i in 0..self.net.inputs() {
            e.choose(numbering.input(i), x.get(i));
        }
    }

    /// Gives the variable that is false its value.
    fn evaluate_zero(&self, e: &mut Evaluation)
        requires valued { IsValued self.now e.old }
        requires fresh { Has e.old.order zero_variable → ⊥ }
        ensures { Grows (circuits_of self.now.net self.now.cells) e.old e.new (λ u. u ≡ zero_variable) }
    {
        let _net = &self.net;
        e.imply(ZERO_VARIABLE, false, ZERO_CLAUSE);
    }

    /// The values of all variables where the inputs have the bits `x`, up to the difference of the first
    /// output that isn't the same in both circuits: that output is answered.
    pub fn evaluate(&self, x: Bits, e: &mut Evaluation) -> Option<u32>
        requires width { length x ≡ length self.now.net.inputs }
        requires places { length e.old.values ≡ variable_count self.now.net self.now.cells + 1 }
        ensures places { length e.new.values ≡ length e.old.values }
        ensures inputs { HasInputs self.now.net x e.new }
        ensures none { IfNone result (IsSameAt self.now e.new) }
        ensures some { IfSome result (λ o. IsOtherAt self.now e.new o) }
    {
        let _net = &self.net;
        self.choose_inputs(x, e);
        self.evaluate_zero(e);
        self.evaluate_nodes(e);
        self.evaluate_cells(e);
        self.evaluate_outputs(e)
    }
}
