//! A trace with the sign in place of literals.
ghost use Rattle.std.specs.Prelude.{◌≡◌, ◌≢◌, ℕ, ◌+◌, ◌<◌, ◌≤◌, nat_lt, true, drop, length, IfOk, OnOk, ◌++◌, [], ◌∷◌};
ghost use Rattle.clause_defs.specs.Traces.{index_at, antecedents_at};
ghost use Rattle.clause_defs.specs.Compaction.{any_derived, compacted};
ghost use Rattle.sat_values.specs.Copies.{copy_at};

use crate::trace::Trace;
use pch_base::NoMemory;
use std::alloc::Global;

/// The trace with the sign `*` in place of the literals of each derived clause but the last one.
pub fn compact(alloc: Global, t: Trace) -> Result<Trace, NoMemory>
    ensures { IfOk result (λ short. short ≡ compacted t) }
{
    let last = behind_last_derived(&t);
    let mut short = Trace::empty(alloc);
    for k in 0..t.len() {
        let sign = takes_sign(&t, k, last);
        copy_clause(&t, k, sign, &mut short)?;
    }
    Ok(short)
}

/// How many clauses there are up to the last derived one, or 0 where none is derived.
fn behind_last_derived(t: &Trace) -> u32
    ensures { (k : ℕ) → any_derived (drop k t.now) ≡ nat_lt k result }
{
    let mut last = t.len();
    while last > 0 && t.antecedents(last - 1).is_empty() {
        last -= 1;
    }
    last
}

/// Whether the clause at place `k` gets the sign or has it, where the last derived clause is number
/// `last`.
fn takes_sign(t: &Trace, k: u32, last: u32) -> bool
    requires within { k < length t.now }
    requires last { (j : ℕ) → any_derived (drop j t.now) ≡ nat_lt j last }
    ensures copy { compacted (drop k t.now)
        ≡ copy_at t.now k result ∷ compacted (drop (k + 1) t.now) }
    ensures derived { result ≡ true → antecedents_at t.now k ≢ [] }
{
    if t.is_compact(k) {
        return true;
    }
    if k >= last.saturating_sub(1) {
        return false;
    }
    !t.antecedents(k).is_empty()
}

/// Appends the clause at place `k` of `t`, with the sign if `sign` says so.
fn copy_clause(t: &Trace, k: u32, sign: bool, short: &mut Trace) -> Result<(), NoMemory>
    requires within { k < length t.now }
    requires as_many { length short.old ≡ k }
    requires same { (j : ℕ) → j < k → index_at short.old j ≡ index_at t.now j }
    requires derived { sign ≡ true → antecedents_at t.now k ≢ [] }
    ensures { OnOk result (short.new ≡ short.old ++ copy_at t.now k sign ∷ []) }
{
    if sign {
        return short.push_compact(t.index(k), t.antecedents(k));
    }
    short.push(t.index(k), t.lits(k), t.antecedents(k))
}
