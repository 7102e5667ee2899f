//! The search, branch by branch.

ghost use Rattle.std.specs.Prelude.{◌≡◌, ℕ, ◌+◌, ◌<◌, ◌≤◌, ◌↔◌, List, length, slice_set, IsTrue, IfOk};
ghost use Rattle.clause_defs.specs.Clauses.{Lits};
ghost use Rattle.fabric_defs.specs.Bits.{IsBits};
ghost use Rattle.log_defs.specs.Logs.{IsIndexOf, clause_of_log};
ghost use Rattle.miter_defs.specs.Equality.{FitsPads};
ghost use Rattle.miter_defs.specs.Numberings.{signal_variable};
ghost use Rattle.miter_values.specs.Parts.{AreChosen};
ghost use Rattle.tree_refute.specs.Branches.{BranchEnds, IsUnder, IsOfMiter, HasVariable, ended, most_words, room_below};

use extract::Cells;
use leaf_chain::{Chains, Evaluation};
use miter_values::MiterValues;
use netlist::Net;
use pch_base::{Bits, NoMemory};
use proof_log::{Log, LogEnd};
use std::alloc::Global;
use std::marker::Model;
use tree_defs::TreeEnd;

/// The variable of the first input.
const FIRST_INPUT: u32 = 2;

/// The two circuits, with the room in which they are evaluated and chains are made.
#[derive(Drop)]
pub(crate) struct Search<'a> {
    values: MiterValues<'a>,
    evaluation: Evaluation,
    chains: Chains,
    inputs: u32,
    /// The index of the clause that some output differs.
    last: u32,
}

impl<'a> Model for Search<'a> {
    ghost use Rattle.miter_cnf.specs.Circuits.{Circuits};
    ghost use Rattle.tree_refute.specs.Rooms.{HasRoom};

    ghost Value = { Circuits };

    ghost view = { λ s. s.values };

    ghost invariant = { λ s. HasRoom s.values s.evaluation s.chains s.inputs s.last };
}

/// An end of the log as one of the search.
fn ended(end: Result<u32, LogEnd>) -> Result<u32, TreeEnd>
    ensures { result ≡ ended end }
{
    match end {
        Ok(index) => Ok(index),
        Err(LogEnd::Kept { index }) => Ok(index),
        Err(LogEnd::Spent { used, need }) => Err(TreeEnd::Spent { used, need }),
    }
}

/// Chooses the bits `x` of the first `i` inputs.
fn choose_first(i: u32, x: Bits, e: &mut Evaluation)
    requires input { i ≤ length x }
    requires places { i + 2 ≤ length e.old.values }
    ensures chosen { (f : List Lits) → AreChosen f x i e.new }
    ensures places { length e.new.values ≡ length e.old.values }
{
    e.clear();
    for j in 0..i {
        e.choose(FIRST_INPUT + j, x.get(j));
    }
}

/// Whether a clause has a literal of the variable.
fn has_variable(log: &Log, index: u32, variable: u32) -> bool
    requires { IsIndexOf log.now index }
    ensures { IsTrue result ↔ HasVariable (clause_of_log log.now index) variable }
{
    for l in log.clause(index) {
        if l.variable() == variable {
            return true;
        }
    }
    false
}

impl<'a> Search<'a> {
    /// The room for the miter that the log's originals are.
    pub(crate) fn new(
        alloc: Global,
        net: &'a Net,
        cells: &'a Cells,
        log: &Log,
    ) -> Result<Search<'a>, NoMemory>
        requires fits { FitsPads net.now cells.now.geometry }
        requires miter { IsOfMiter (record { net = net.now; cells = cells.now }) log.now }
        ensures { IfOk result (λ s. s ≡ record { net = net.now; cells = cells.now }) }
    {
        let _geometry = cells.geometry();
        let variables = log.originals().variables();
        Ok(Search {
            values: MiterValues::new(alloc, net, cells, log.originals())?,
            evaluation: Evaluation::new(alloc, variables)?,
            chains: Chains::new(alloc, variables)?,
            inputs: net.inputs(),
            last: log.originals().len(),
        })
    }

    /// A clause that is false where the first `i` inputs have the bits `x`, and whose variables are these
    /// inputs.
    pub(crate) fn branch(&mut self, i: u32, x: Bits, log: &mut Log) -> Result<u32, TreeEnd>
        requires input { i ≤ length self.old.net.inputs }
        requires bits { IsBits (length self.old.net.inputs) x }
        requires miter { IsOfMiter self.old log.old }
        ensures circuits { self.new ≡ self.old }
        ensures ends { BranchEnds self.old x i (room_below self.old i) log.old result log.new }
    {
        if i == self.inputs {
            return self.leaf(x, log);
        }
        let first = self.branch(i + 1, x.with(i, false), log)?;
        if !has_variable(log, first, FIRST_INPUT + i) {
            return Ok(first);
        }
        let second = match self.branch(i + 1, x.with(i, true), log) {
            Ok(second) => second,
            Err(end) => return Err(end),
        };
        if !has_variable(log, second, FIRST_INPUT + i) {
            return Ok(second);
        }
        self.join(i, x, first, second, log)
    }

    /// The clause that the chain from the last clause of the miter ends in.
    fn leaf(&mut self, x: Bits, log: &mut Log) -> Result<u32, TreeEnd>
        requires bits { IsBits (length self.old.net.inputs) x }
        requires miter { IsOfMiter self.old log.old }
        ensures circuits { self.new ≡ self.old }
        ensures ends { BranchEnds self.old x (length self.old.net.inputs) (most_words self.old) log.old result log.new }
    {
        if let Some(_output) = self.values.evaluate(x, &mut self.evaluation) {
            return Err(TreeEnd::Differs { x });
        }
        ended(self.chains.derive_chosen(&self.evaluation, self.last, log))
    }

    /// The two clauses resolved on input `i`: the first is false where it is 0, and the second where it
    /// is 1.
    fn join(
        &mut self,
        i: u32,
        x: Bits,
        first: u32,
        second: u32,
        log: &mut Log,
    ) -> Result<u32, TreeEnd>
        requires input { i < length self.old.net.inputs }
        requires bits { IsBits (length self.old.net.inputs) x }
        requires miter { IsOfMiter self.old log.old }
        requires first { IsIndexOf log.old first }
        requires first_under { IsUnder (slice_set x i 0) (i + 1) (clause_of_log log.old first) }
        requires first_has { HasVariable (clause_of_log log.old first) (signal_variable i) }
        requires second { IsIndexOf log.old second }
        requires second_under { IsUnder (slice_set x i 1) (i + 1) (clause_of_log log.old second) }
        ensures circuits { self.new ≡ self.old }
        ensures ends { BranchEnds self.old x i (most_words self.old) log.old result log.new }
    {
        choose_first(i, x, &mut self.evaluation);
        self.evaluation.imply(FIRST_INPUT + i, true, first);
        ended(self.chains.derive_chosen(&self.evaluation, second, log))
    }
}
