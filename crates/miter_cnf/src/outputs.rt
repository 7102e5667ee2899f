ghost use Rattle.std.specs.Prelude.{◌≡◌, ◌<◌, ◌≤◌, [], ◌∷◌, length, IsTrue, OnOk};
ghost use Rattle.fabric_defs.specs.Numbered.{joined};
ghost use Rattle.miter_defs.specs.Miters.{output_clauses, difference_clauses, some_difference};
ghost use Rattle.miter_cnf.specs.Writing.{Adds};

use crate::circuits::Circuits;
use crate::writer::Writer;
use pch_base::{Lit, NoMemory};

/// Writes that `d` is true exactly where `a` and `b` are not the same, for variables of these literals.
fn write_difference(d: Lit, a: Lit, b: Lit, w: &mut Writer) -> Result<(), NoMemory>
    requires difference { IsTrue d.positive }
    requires first { IsTrue a.positive }
    requires second { IsTrue b.positive }
    ensures { OnOk result (Adds w.old.clauses
        (difference_clauses d.variable a.variable b.variable)
        w.new.clauses) }
{
    w.write(&[d.negated(), a, b])?;
    w.write(&[d.negated(), a.negated(), b.negated()])?;
    w.write(&[d, a.negated(), b])?;
    w.write(&[d, a, b.negated()])
}

impl<'a> Circuits<'a> {
    /// Writes the difference of output `o`.
    fn write_output(&self, o: u32, w: &mut Writer) -> Result<(), NoMemory>
        requires { o < length self.now.net.outputs }
        ensures { OnOk result (Adds w.old.clauses
            (output_clauses self.now.net self.now.cells o)
            w.new.clauses) }
    {
        let net = self.net;
        let cells = self.cells;
        let signal = self.signal(net.output_signal(o));
        let source = self.source(cells.output(o));
        write_difference(self.difference(o), signal, source, w)
    }

    /// Writes the differences of the outputs.
    pub(crate) fn write_outputs(&self, w: &mut Writer) -> Result<(), NoMemory>
        ensures { OnOk result (Adds w.old.clauses
            (joined (length self.now.net.outputs) (output_clauses self.now.net self.now.cells))
            w.new.clauses) }
    {
        let net = self.net;
        for o in 0..net.outputs() {
            self.write_output(o, w)?;
        }
        Ok(())
    }

    /// Writes that some output differs.
    pub(crate) fn write_some_difference(&self, w: &mut Writer) -> Result<(), NoMemory>
        ensures { OnOk result (Adds w.old.clauses
            (some_difference self.now.net self.now.cells ∷ [])
            w.new.clauses) }
    {
        let net = self.net;
        w.begin();
        for o in 0..net.outputs() {
            w.add(self.difference(o))?;
        }
        w.end()
    }
}
