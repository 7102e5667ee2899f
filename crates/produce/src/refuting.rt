//! The log that refutes the miter of the specification and the placed design.

ghost use Rattle.std.specs.Prelude.{◌≡◌, ◌≤◌, [], IfOk, IfErr};
ghost use Rattle.log_defs.specs.Logs.{Extends};
ghost use Rattle.miter_defs.specs.Equality.{FitsPads};
ghost use Rattle.tree_defs.specs.Trees.{TreeEnds};
ghost use Rattle.produce.specs.Endings.{Refuted, Unrefuted, IsOverMiter, answer_of};

use crate::learning::learned;
use crate::produce_end::ProduceEnd;
use extract::extract;
use fabric::Config;
use miter_cnf::miter;
use miter_size::MAX_BUDGET;
use netlist::Net;
use pch_base::NoMemory;
use proof_log::Log;
use std::alloc::Global;
use tree_defs::TreeEnd;
use tree_refute::tree;

/// A log with the miter as its clauses, and nothing derived yet.
fn open_log(alloc: Global, spec: &Net, config: &Config, budget: u32) -> Result<Log, NoMemory>
    requires fits { FitsPads spec.now config.now.geometry }
    requires budget { budget ≤ MAX_BUDGET }
    ensures over_miter { IfOk result (IsOverMiter spec.now config.now) }
    ensures nothing { IfOk result (λ log. log.derived ≡ []) }
    ensures budget { IfOk result (λ log. log.budget ≡ budget) }
{
    let _geometry = config.geometry();
    let _inputs = spec.inputs();
    let cells = extract(alloc, config)?;
    let miter = miter(alloc, spec, &cells)?;
    Log::open(alloc, miter, budget)
}

/// Searches a refutation of the miter that the log's originals are: by clause learning, and where that
/// finds nothing, by trying every input, in the same log with its whole budget.
fn search(
    alloc: Global,
    spec: &Net,
    config: &Config,
    budget: u32,
    log: &mut Log,
) -> Result<TreeEnd, NoMemory>
    requires fits { FitsPads spec.now config.now.geometry }
    requires miter { IsOverMiter spec.now config.now log.old }
    requires nothing { log.old.derived ≡ [] }
    requires budget { log.old.budget ≡ budget }
    ensures extends { Extends log.old log.new }
    ensures ends { IfOk result (λ end. TreeEnds spec.now config.now log.old end log.new) }
{
    match learned(alloc, spec, config, budget, log)? {
        Some(end) => Ok(end),
        None => tree(alloc, spec, config, log),
    }
}

/// An end of the search as an answer.
fn answer_of(end: TreeEnd, log: Log) -> Result<Log, ProduceEnd>
    ensures { result ≡ answer_of end log }
{
    match end {
        TreeEnd::Empty { .. } => Ok(log),
        TreeEnd::Differs { x } => Err(ProduceEnd::Differs { x }),
        TreeEnd::Spent { used, need } => Err(ProduceEnd::Spent { used, need, log }),
    }
}

/// The log whose last clause is the empty one, within the budget; or an input at which the two differ,
/// or the log where the budget is spent.
pub(crate) fn refuted_miter(
    alloc: Global,
    spec: &Net,
    config: &Config,
    budget: u32,
) -> Result<Log, ProduceEnd>
    requires fits { FitsPads spec.now config.now.geometry }
    requires budget { budget ≤ MAX_BUDGET }
    ensures refuted { IfOk result (Refuted spec.now config.now budget) }
    ensures unrefuted { IfErr result (Unrefuted spec.now config.now budget) }
{
    let _geometry = config.geometry();
    let _inputs = spec.inputs();
    let Ok(mut log) = open_log(alloc, spec, config, budget) else {
        return Err(ProduceEnd::NoMemory);
    };
    let Ok(end) = search(alloc, spec, config, budget, &mut log) else {
        return Err(ProduceEnd::NoMemory);
    };
    let _used = log.used();
    answer_of(end, log)
}
