ghost use Rattle.std.specs.Prelude.{◌≡◌, ℕ, ◌+◌, ◌<◌, length, IfOk, IfNone};
ghost use Rattle.clause_defs.specs.Clauses.{Unsat};
ghost use Rattle.clause_defs.specs.Traces.{IsTrace};
ghost use Rattle.clause_defs.specs.Verdicts.{ClauseFault, VerdictOf};
ghost use Rattle.clause_defs.specs.declared.verdict.TheConstants.{MAX_COMPUTED};
ghost use Rattle.clause_defs.specs.declared.verdict.Verdict.{Verdict};
ghost use Rattle.chain_check.specs.Rooms.{IsRoomFor, KnowsBefore};

use crate::room::Room;
use clause_defs::{MAX_COMPUTED, Verdict};
use clause_laws::refutation_is_sound;
use pch_base::NoMemory;
use sat_values::{ClauseSet, Trace};
use std::alloc::Global;

/// What the trace shows of the clauses: the fault of the first faulty clause in the order of the
/// trace, or that it ends with the empty clause (`VerdictOf`).
///
/// Where it refutes them, no assignment satisfies them all (`Unsat`).
pub fn check_trace(alloc: Global, f: &ClauseSet, t: &Trace) -> Result<Verdict, NoMemory>
    ensures verdict { IfOk result (λ v. VerdictOf f.now.clauses t.now MAX_COMPUTED v) }
    ensures sound { IfOk result (λ v. v ≡ Verdict.Refutes → Unsat f.now.variables f.now.clauses) }
{
    let mut room = Room::open(alloc, t, MAX_COMPUTED)?;
    Ok(check_room(f, t, &mut room))
}

/// What the trace shows of the clauses, within the limit of a room that was opened for the trace
/// (`VerdictOf`). Takes no memory.
pub fn check_room(f: &ClauseSet, t: &Trace, room: &mut Room) -> Verdict
    requires { IsRoomFor t.now room.old }
    ensures verdict { VerdictOf f.now.clauses t.now room.old.limit result }
    ensures sound { result ≡ Verdict.Refutes → Unsat f.now.variables f.now.clauses }
    ensures room { IsRoomFor t.now room.new }
    ensures limit { room.new.limit ≡ room.old.limit }
{
    refutation_is_sound();
    room.clear(t);
    for k in 0..t.len() {
        if let Some(fault) = clause_fault(f, t, k, room) {
            return fault;
        }
    }
    if room.ends_empty(t) {
        Verdict::Refutes
    } else {
        Verdict::NotEmptyEnd
    }
}

/// The fault of the clause at place `k`, counted from 0, if it has one (`ClauseFault`).
fn clause_fault(f: &ClauseSet, t: &Trace, k: u32, room: &mut Room) -> Option<Verdict>
    requires within { k < length t.now }
    requires trace { IsTrace t.now }
    requires room { IsRoomFor t.now room.old }
    requires knows { KnowsBefore t.now room.old k }
    ensures fault { ClauseFault f.now.clauses t.now room.old.limit k result }
    ensures knows { IfNone result (KnowsBefore t.now room.new (k + 1)) }
    ensures room { IsRoomFor t.now room.new }
    ensures limit { room.new.limit ≡ room.old.limit }
{
    if t.is_compact(k) {
        return room.compute(t, k);
    }
    room.stated_fault(f, t, k)
}
