ghost use Rattle.std.specs.Prelude.{◌≡◌, ℕ, ◌+◌, ◌*◌, ◌/◌, ◌<◌, ◌≤◌, length, Some, IfOk, IfSome};
ghost use Rattle.clause_defs.specs.Clauses.{Unsat};
ghost use Rattle.clause_defs.specs.Verdicts.{ClauseFault, VerdictOf};
ghost use Rattle.clause_defs.specs.declared.verdict.TheConstants.{MAX_COMPUTED};
ghost use Rattle.clause_defs.specs.declared.verdict.Verdict.{Verdict};
ghost use Rattle.chain_check.specs.Known.{IsKnownBefore};
ghost use Rattle.chain_check.specs.Rooms.{KnowsBefore, SignsAreRight, StopsAt, RightBetween, IsFirstFault};
ghost use Rattle.par_check.specs.Pieces.{piece_begin, IsPiece};

use crate::progress::compute_signs;
use chain_check::{Room, Stop, check_trace, original_fault};
use clause_defs::{MAX_COMPUTED, Verdict};
use clause_laws::refutation_is_sound;
use pch_base::NoMemory;
use rayon::prelude::*;
use sat_values::{ClauseSet, Trace};
use std::alloc::Global;
use std::thread::Threads;

/// What the trace shows of the clauses (`VerdictOf`), with its places divided into so many pieces, from
/// 1 to 64, which are checked on threads of their own where such can be started.
///
/// Where it refutes them, no assignment satisfies them all (`Unsat`).
pub fn check_pieces(
    rt: &(impl Threads + Sync),
    alloc: Global,
    f: &ClauseSet,
    t: &Trace,
    pieces: u32,
) -> Result<Verdict, NoMemory>
    requires low { 1 ≤ pieces }
    requires high { pieces ≤ 64 }
    ensures verdict { IfOk result (λ v. VerdictOf f.now.clauses t.now MAX_COMPUTED v) }
    ensures sound { IfOk result (λ v. v ≡ Verdict.Refutes → Unsat f.now.variables f.now.clauses) }
{
    let pieces = pieces.min(t.len()).max(1);
    if pieces == 1 {
        return check_trace(alloc, f, t);
    }
    let mut room = Room::open(alloc, t, MAX_COMPUTED)?;
    let stop = compute_signs(rt, alloc, t, &mut room, pieces)?;
    let found = first_of_pieces(rt, alloc, f, t, &room, stop.place, pieces)?;
    refutation_is_sound();
    Ok(verdict(f, t, &room, stop, found))
}

/// The fault of the first faulty clause before a place, where the room knows the clauses with the sign
/// before it, and these are right.
fn first_of_pieces(
    rt: &(impl Threads + Sync),
    alloc: Global,
    f: &ClauseSet,
    t: &Trace,
    room: &Room,
    end: u32,
    pieces: u32,
) -> Result<Option<Verdict>, NoMemory>
    requires some { 1 ≤ pieces }
    requires within { end ≤ length t.now }
    requires known { IsKnownBefore t.now room.now.marks.variables room.now.computed.clauses end }
    requires right { SignsAreRight t.now room.now.limit end }
    ensures { IfOk result (IsFirstFault f.now.clauses t.now room.now.limit 0 end) }
{
    let found = (0..pieces)
        .into_par_iter()
        .with_min_len(1)
        .map(
            |p: u32| -> Result<Option<Verdict>, NoMemory>
                requires { (p < pieces) × (end ≤ length t.now)
                    × IsKnownBefore t.now room.now.marks.variables room.now.computed.clauses end
                    × SignsAreRight t.now room.now.limit end }
                ensures { IsPiece f.entry.now.clauses t.entry.now room.entry.now.limit end pieces p
                    result }
            {
                check_piece(
                    alloc,
                    f,
                    t,
                    room,
                    piece_begin(end, pieces, p),
                    piece_begin(end, pieces, p + 1),
                )
            },
        )
        .collect::<Vec<_>>(rt, alloc)?;
    for &result in found.as_slice() {
        if let Some(fault) = result? {
            return Ok(Some(fault));
        }
    }
    Ok(None)
}

/// The fault of the first faulty clause at the places from `from` to before `to`.
fn check_piece(
    alloc: Global,
    f: &ClauseSet,
    t: &Trace,
    room: &Room,
    from: u32,
    to: u32,
) -> Result<Option<Verdict>, NoMemory>
    requires order { from ≤ to }
    requires within { to ≤ length t.now }
    requires known { IsKnownBefore t.now room.now.marks.variables room.now.computed.clauses to }
    requires right { SignsAreRight t.now room.now.limit to }
    ensures { IfOk result (IsFirstFault f.now.clauses t.now room.now.limit from to) }
{
    let stop = originals(f, t, from, to);
    if let Some(fault) = stop.fault {
        return Ok(Some(fault));
    }
    if stop.place == to {
        return Ok(None);
    }
    let mut marks = room.more_marks(alloc)?;
    Ok(room.first_fault(f, t, stop.place, to, &mut marks))
}

/// Checks the originals at the places from `from` to before `to`, up to the first faulty one or the
/// first derived clause whose literals are stated. Takes no memory.
fn originals(f: &ClauseSet, t: &Trace, from: u32, to: u32) -> Stop
    requires order { from ≤ to }
    requires within { to ≤ length t.now }
    ensures order { from ≤ result.place }
    ensures within { result.place ≤ to }
    ensures right { (w : ℕ) → SignsAreRight t.now w to
        → RightBetween f.now.clauses t.now w from result.place }
    ensures fault { IfSome result.fault (λ v. (result.place < to)
        × ((w : ℕ) → ClauseFault f.now.clauses t.now w result.place (Some v))) }
{
    for k in from..to {
        if t.is_compact(k) {
            continue;
        }
        if !t.antecedents(k).is_empty() {
            return Stop {
                place: k,
                fault: None,
            };
        }
        if let Some(fault) = original_fault(f, t, k) {
            return Stop {
                place: k,
                fault: Some(fault),
            };
        }
    }
    Stop {
        place: to,
        fault: None,
    }
}

/// Where piece `p` of so many begins, over the places before `end`.
pub(crate) fn piece_begin(end: u32, pieces: u32, p: u32) -> u32
    requires some { 1 ≤ pieces }
    requires within { p ≤ pieces }
    ensures begin { result ≡ piece_begin end pieces p }
    ensures within { result ≤ end }
{
    (u64::from(p) * u64::from(end) / u64::from(pieces)) as u32
}

/// The verdict, from where the clauses with the sign stopped and the first fault before that.
fn verdict(f: &ClauseSet, t: &Trace, room: &Room, stop: Stop, found: Option<Verdict>) -> Verdict
    requires within { stop.place ≤ length t.now }
    requires stop { StopsAt t.now room.now.limit stop.place stop.fault }
    requires knows { KnowsBefore t.now room.now stop.place }
    requires found { IsFirstFault f.now.clauses t.now room.now.limit 0 stop.place found }
    ensures { VerdictOf f.now.clauses t.now room.now.limit result }
{
    if let Some(fault) = found {
        return fault;
    }
    if let Some(fault) = stop.fault {
        return fault;
    }
    if room.ends_empty(t) {
        Verdict::Refutes
    } else {
        Verdict::NotEmptyEnd
    }
}
