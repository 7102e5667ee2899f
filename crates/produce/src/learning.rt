//! The search by clause learning, which goes before the search that tries every input.

ghost use Rattle.std.specs.Prelude.{◌≡◌, ℕ, ◌+◌, ◌<◌, ◌≤◌, [], length, IfOk};
ghost use Rattle.log_defs.specs.Logs.{Extends};
ghost use Rattle.fabric_defs.specs.Bits.{IsBits};
ghost use Rattle.miter_defs.specs.Equality.{FitsPads};
ghost use Rattle.search_defs.specs.Ends.{IsTotal};
ghost use Rattle.tree_defs.specs.Budgets.{Enough};
ghost use Rattle.produce.specs.Endings.{IsOverMiter};
ghost use Rattle.produce.specs.Learning.{AreInputsAt, IsInputFound, LearningEnds};

use crate::budget::enough;
use crate::comparing::differ_at;
use cdcl_log::Solver;
use fabric::Config;
use netlist::Net;
use pch_base::{Bits, NoMemory};
use proof_log::Log;
use search_defs::CdclEnd;
use std::alloc::Global;
use tree_defs::TreeEnd;

/// The variable of the first input.
const FIRST_INPUT: u32 = 2;

/// How many words the search by clause learning may derive for a miter of two circuits with `n` inputs,
/// which has `v` variables: what the budget has beside the words that are enough for the search that tries
/// every input, or all of it, where it isn't enough for that.
fn learning_limit(n: u32, v: u32, budget: u32) -> u32
    requires { n ≤ 64 }
    ensures within { result ≤ budget }
    ensures rest { Enough n v ≤ budget → result + Enough n v ≡ budget }
    ensures whole { budget < Enough n v → result ≡ budget }
{
    let most = enough(n, v);
    if most <= u128::from(budget) {
        budget - most as u32
    } else {
        budget
    }
}

/// The bits of the first inputs at the point that the search has found.
fn inputs_at(solver: &Solver, inputs: u32) -> Bits
    requires few { inputs ≤ 64 }
    requires point { IsTotal solver.now.trail }
    requires variables { inputs + 1 ≤ solver.now.trail.variables }
    ensures { AreInputsAt solver.now.trail.lits inputs result }
{
    let mut x = Bits::new(0, inputs);
    for i in 0..inputs {
        x = x.with(i, solver.value(FIRST_INPUT + i));
    }
    x
}

/// What clause learning finds about the miter that the log's originals are: that it has no solution, or an
/// input at which the two circuits differ. Where it finds neither, the search that tries every input has
/// enough words left, if the budget is enough for it.
pub(crate) fn learned(
    alloc: Global,
    spec: &Net,
    config: &Config,
    budget: u32,
    log: &mut Log,
) -> Result<Option<TreeEnd>, NoMemory>
    requires fits { FitsPads spec.now config.now.geometry }
    requires miter { IsOverMiter spec.now config.now log.old }
    requires nothing { log.old.derived ≡ [] }
    requires budget { log.old.budget ≡ budget }
    ensures extends { Extends log.old log.new }
    ensures ends { IfOk result (λ found. LearningEnds spec.now config.now log.old found log.new) }
{
    let _geometry = config.geometry();
    let inputs = spec.inputs();
    let limit = learning_limit(inputs, log.originals().variables(), budget);
    let mut solver = Solver::open(alloc, log, limit)?;
    match solver.solve(log) {
        CdclEnd::Empty { index } => Ok(Some(TreeEnd::Empty { index })),
        CdclEnd::Point => input_found(alloc, spec, config, inputs_at(&solver, inputs)),
        CdclEnd::Spent { .. } => Ok(None),
    }
}

/// The input `x`, if the two circuits differ there.
fn input_found(
    alloc: Global,
    spec: &Net,
    config: &Config,
    x: Bits,
) -> Result<Option<TreeEnd>, NoMemory>
    requires fits { FitsPads spec.now config.now.geometry }
    requires bits { IsBits (length spec.now.inputs) x }
    ensures { IfOk result (IsInputFound spec.now config.now x) }
{
    if differ_at(alloc, spec, config, x)? {
        Ok(Some(TreeEnd::Differs { x }))
    } else {
        Ok(None)
    }
}
