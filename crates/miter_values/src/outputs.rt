//! The values of the differences of the outputs.

ghost use Rattle.std.specs.Prelude.{◌≡◌, ℕ, ◌+◌, ◌*◌, ◌<◌, length, false, IfSome, IfNone};
ghost use Rattle.clause_defs.specs.Clauses.{Has};
ghost use Rattle.leaf_defs.specs.Evaluated.{value_of};
ghost use Rattle.miter_defs.specs.Numberings.{difference_variable, signal_variable, source_variable};
ghost use Rattle.miter_places.specs.Places.{first_of_output};
ghost use Rattle.miter_values.specs.Growing.{Grows};
ghost use Rattle.miter_values.specs.Parts.{circuits_of, IsValued, AreDone, AreSame, DifferHere, IsDifference, output_signal, output_source};

use crate::values::MiterValues;
use leaf_chain::Evaluation;

/// How many clauses an output has.
const CLAUSES_OF_OUTPUT: u32 = 4;

impl<'a> MiterValues<'a> {
    /// The value of the signal of output `o`.
    fn first_value(&self, o: u32, e: &Evaluation) -> bool
        requires output { o < length self.now.net.outputs }
        requires valued { IsValued self.now e.now }
        ensures { result ≡ value_of e.now.values (signal_variable (output_signal self.now.net o)) }
    {
        e.value(self.signal(self.net.output_signal(o)))
    }

    /// The value of the source of output pad `o`.
    fn second_value(&self, o: u32, e: &Evaluation) -> bool
        requires output { o < length self.now.net.outputs }
        requires valued { IsValued self.now e.now }
        ensures { result ≡ value_of e.now.values
            (source_variable self.now.net self.now.cells (output_source self.now.cells o)) }
    {
        e.value(self.source(self.cells.output(o)))
    }

    /// Gives the difference of output `o`, which has this value as its pad does, its value.
    fn evaluate_output(&self, o: u32, value: bool, e: &mut Evaluation)
        requires output { o < length self.now.net.outputs }
        requires valued { IsValued self.now e.old }
        requires signal { Has e.old.order (signal_variable (output_signal self.now.net o)) }
        requires source { Has e.old.order
            (source_variable self.now.net self.now.cells (output_source self.now.cells o)) }
        requires first { value ≡ value_of e.old.values (signal_variable (output_signal self.now.net o)) }
        requires second { value ≡ value_of e.old.values
            (source_variable self.now.net self.now.cells (output_source self.now.cells o)) }
        requires fresh { Has e.old.order (difference_variable self.now.net self.now.cells o) → ⊥ }
        ensures grows { Grows (circuits_of self.now.net self.now.cells) e.old e.new
            (λ u. u ≡ difference_variable self.now.net self.now.cells o) }
        ensures value { value_of e.new.values (difference_variable self.now.net self.now.cells o) ≡ false }
    {
        let numbering = &self.numbering;
        let number = self.places.outputs() + CLAUSES_OF_OUTPUT * o;
        e.imply(numbering.difference(o), false, number + u32::from(value));
    }

    /// Gives the differences their values up to the first one that is true: that output is answered.
    pub(crate) fn evaluate_outputs(&self, e: &mut Evaluation) -> Option<u32>
        requires valued { IsValued self.now e.old }
        requires done { AreDone self.now e.old }
        ensures none { IfNone result (AreSame self.now e.old e.new (length self.now.net.outputs)) }
        ensures some { IfSome result (λ o. DifferHere self.now e.new o) }
        ensures grows { (n : ℕ) × Grows (circuits_of self.now.net self.now.cells) e.old e.new
            (IsDifference self.now.net self.now.cells n) }
    {
        for o in 0..self.net.outputs() {
            let value = self.first_value(o, e);
            if self.second_value(o, e) != value {
                return Some(o);
            }
            self.evaluate_output(o, value, e);
        }
        None
    }
}
