//! The trace that a log is.
ghost use Rattle.std.specs.Prelude.{◌≡◌, ℕ, ◌+◌, ◌<◌, ◌≤◌, ◌++◌, [], ◌∷◌, length, map, get_or, IfOk, OnOk};
ghost use Rattle.clause_defs.specs.Clauses.{Lits, Has, IsOrdered, IsClause};
ghost use Rattle.clause_defs.specs.Traces.{index_at};
ghost use Rattle.log_defs.specs.Logs.{LogOk};
ghost use Rattle.log_defs.specs.LogTraces.{place_with, derived_entry, trace_of};
ghost use Rattle.proof_log.specs.Kept.{derived_of, AreSideBySide};

use clause_defs::MAX_INDEX;
use clause_index::ClauseIndex;
use flat_lists::FlatLists;
use pch_base::{Lit, NoMemory};
use sat_values::{ClauseSet, Trace};
use std::alloc::Global;

/// The originals under their numbers, and then the derived clauses.
pub fn trace_of_log(
    alloc: Global,
    originals: &ClauseSet,
    clauses: &ClauseIndex,
    antecedents: &FlatLists<u32>,
) -> Result<Trace, NoMemory>
    requires kept { AreSideBySide originals.now.clauses clauses.now.clauses antecedents.now.lists }
    ensures { IfOk result (λ t. t ≡ trace_of originals.now.clauses (derived_of clauses.now.clauses antecedents.now.lists)) }
{
    let mut trace = trace_of_originals(alloc, originals)?;
    let mut places = Vec::new(alloc);
    for k in 0..clauses.len() {
        list_places(antecedents.get(k), &mut places)?;
        let index = originals.len() + k + 1;
        trace.push(index, clauses.clause(k), &places)?;
    }
    Ok(trace)
}

/// The originals under their numbers.
fn trace_of_originals(alloc: Global, originals: &ClauseSet) -> Result<Trace, NoMemory>
    requires few { length originals.now.clauses ≤ MAX_INDEX }
    ensures { IfOk result (λ t. t ≡ trace_of originals.now.clauses []) }
{
    let mut trace = Trace::empty(alloc);
    for k in 0..originals.len() {
        trace.push(k + 1, originals.clause(k + 1), &[])?;
    }
    Ok(trace)
}

/// Lists the places of the clauses with these indices in a trace.
fn list_places(indices: &[u32], places: &mut Vec<u32>) -> Result<(), NoMemory>
    requires { (index : ℕ) → Has indices.now index → 1 ≤ index }
    ensures { OnOk result (places.new.items ≡ map place_with indices.now) }
{
    places.clear();
    for index in indices {
        places.push(index - 1)?;
    }
    Ok(())
}
