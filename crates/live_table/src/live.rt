//! A place at the published copies, and the evaluators there.

ghost use Rattle.std.specs.Prelude.{◌≡◌, ◌≤◌, [], length, Some, None, MatchResult, MatchOption};
ghost use Rattle.pch_io.specs.Outside.{Rose};
ghost use mathlib.Core.List.{IsPrefix};
ghost use Rattle.left_right.specs.Sides.{view};
ghost use Rattle.slot_core.specs.Values.{TableValue};
ghost use Rattle.live_table.specs.Values.{shape_of, table_of, FrontValue};
ghost use Rattle.live_table.specs.Places.{Misses, Learns};
ghost use Rattle.live_table.specs.Rule.{seen_by, shape_at, IsAt, IsMet, IsLeft};

use crate::evaluator::EvaluatorOver;
use crate::front::Front;
use crate::place::{Gone, Place, Task};
use crate::rule::{Meet, TableReader};
use std::marker::Model;

/// A reader of the published copies, which counts the entries that were refused to it. It waits for
/// nobody.
#[derive(Drop)]
pub struct LivePlace {
    /// The reader, which is here between two calls.
    seat: Option<TableReader>,
    /// Stands for the entries that were seen.
    front: Front,
    /// How often the place was refused. The count stands still at its type's end.
    refusals: u64,
}

impl Model for LivePlace {
    ghost use Rattle.std.specs.Prelude.{Some};
    ghost use Rattle.left_right.specs.Sides.{view as view_of};
    ghost use Rattle.live_table.specs.Values.{PlaceValue};
    ghost use Rattle.live_table.specs.Rule.{seen_by, shape_at, IsAt};

    ghost Value = { PlaceValue };

    ghost view = { λ p. record {
      book = Some p.front.book;
      shape = shape_at (seen_by (λ r. view_of r.place) p.seat);
      seen = p.front.journal;
      refusals = p.refusals;
    } };

    ghost invariant = { λ p. IsAt (seen_by (λ r. view_of r.place) p.seat) p.front };
}

/// Who asks the slots of a device while entries are made.
pub type Evaluator = EvaluatorOver<LivePlace>;

/// Enters the published copy and runs the task on its table. Where it is refused there is no front;
/// else the front of the copy is answered.
fn meet<T: Task>(reader: TableReader, task: &mut T) -> (TableReader, Option<Front>)
    requires can { (t : TableValue) (f : FrontValue) → IsAt (view reader.place) f
        → shape_of t ≡ shape_at (view reader.place) → T.can task.old t }
    requires known { (f : FrontValue) × IsAt (view reader.place) f }
    ensures { MatchOption result.1 ((view result.0.place ≡ view reader.place) × (task.new ≡ task.old))
        (λ f. IsMet (view reader.place) (view result.0.place) f
        × T.does task.old (table_of (shape_at (view result.0.place)) f.journal) task.new) }
{
    match reader.enter_as::<Meet>() {
        Ok(reading) => {
            let published = reading.get();
            let _entries = published.table.len();
            task.on(&published.table);
            let front = published.front.again();
            (reading.leave(), Some(front))
        }
        Err(reader) => (reader, None),
    }
}

/// Enters the published copy, and answers its front where it has all of the given one.
fn meet_front(reader: TableReader, learned: &Front) -> (TableReader, Option<Front>)
    requires { IsAt (view reader.place) (record learned.now { journal = [] }) }
    ensures { MatchOption result.1 (IsLeft (view reader.place) (view result.0.place))
        (λ f. IsMet (view reader.place) (view result.0.place) f
        × IsPrefix learned.now.journal f.journal) }
{
    match reader.enter_as::<Meet>() {
        Ok(reading) => {
            let published = reading.get();
            let _entries = published.table.len();
            let front = if published.front.has(learned) {
                Some(published.front.again())
            } else {
                None
            };
            (reading.leave(), front)
        }
        Err(reader) => (reader, None),
    }
}

/// Enters from a seat, whose reader is taken for as long.
fn visit<T: Task>(seat: &mut Option<TableReader>, task: &mut T) -> Option<Front>
    requires can { (t : TableValue) (f : FrontValue) → IsAt (seen_by (λ r. view r.place) seat.old) f
        → shape_of t ≡ shape_at (seen_by (λ r. view r.place) seat.old) → T.can task.old t }
    requires known { (f : FrontValue) × IsAt (seen_by (λ r. view r.place) seat.old) f }
    ensures { MatchOption result
        ((seen_by (λ r. view r.place) seat.new ≡ seen_by (λ r. view r.place) seat.old)
        × (task.new ≡ task.old))
        (λ f. IsMet (seen_by (λ r. view r.place) seat.old) (seen_by (λ r. view r.place) seat.new) f
        × T.does task.old (table_of (shape_at (seen_by (λ r. view r.place) seat.new)) f.journal)
        task.new) }
{
    let reader = seat.take()?;
    let (reader, met) = meet(reader, task);
    *seat = Some(reader);
    met
}

/// Enters from a seat, and answers the front of the copy where it has all of the given one.
fn visit_front(seat: &mut Option<TableReader>, learned: &Front) -> Option<Front>
    requires { IsAt (seen_by (λ r. view r.place) seat.old) (record learned.now { journal = [] }) }
    ensures { MatchOption result
        (IsLeft (seen_by (λ r. view r.place) seat.old) (seen_by (λ r. view r.place) seat.new))
        (λ f. IsMet (seen_by (λ r. view r.place) seat.old) (seen_by (λ r. view r.place) seat.new) f
        × IsPrefix learned.now.journal f.journal) }
{
    let reader = seat.take()?;
    let (reader, met) = meet_front(reader, learned);
    *seat = Some(reader);
    met
}

/// Keeps the front that was met, or counts a refusal where there is none.
fn keep(kept: &mut Front, refusals: &mut u64, met: Option<Front>) -> Result<(), Gone>
    ensures kept { MatchResult result (λ _. (met ≡ Some kept.new) × (refusals.new ≡ refusals.old))
        (λ _. (met ≡ None) × (kept.new ≡ kept.old) × Rose refusals.old refusals.new) }
    ensures counted { refusals.old ≤ refusals.new }
{
    match met {
        Some(front) => {
            *kept = front;
            Ok(())
        }
        None => {
            *refusals = refusals.saturating_add(1);
            Err(Gone)
        }
    }
}

impl LivePlace {
    /// A place at the reader, which was told of the published table, that has seen as much as the
    /// front.
    pub(crate) fn new(reader: TableReader, front: Front) -> LivePlace
        requires { IsAt (view reader.place) front }
        ensures { result ≡ record {
          book = Some front.book;
          shape = shape_at (view reader.place);
          seen = front.journal;
          refusals = 0;
        } }
    {
        LivePlace {
            seat: Some(reader),
            front,
            refusals: 0,
        }
    }

    /// How many entries were seen.
    pub(crate) fn entries(&self) -> u32
        ensures { result ≡ length self.now.seen }
    {
        self.front.len()
    }

    /// Takes the front in, which is of the same history, and enters one table that has all of it.
    /// `Gone` comes only where the count of refusals rises or stands at its end, and leaves what was
    /// seen as it was.
    pub fn learn(&mut self, f: &Front) -> Result<(), Gone>
        requires { self.old.book ≡ Some f.now.book }
        ensures { MatchResult result (λ _. Learns f.now self.old self.new)
            (λ _. Misses self.old self.new) }
    {
        let met = visit_front(&mut self.seat, f);
        keep(&mut self.front, &mut self.refusals, met)
    }
}

impl Place for LivePlace {
    ghost value = { λ p. p };

    fn enter<T: Task>(&mut self, task: &mut T) -> Result<(), Gone> {
        let met = visit(&mut self.seat, task);
        keep(&mut self.front, &mut self.refusals, met)
    }
}

impl EvaluatorOver<LivePlace> {
    /// Takes the front in, which is of the same `open`, and enters one table that has all of it. Waits
    /// for nobody and takes no memory.
    pub fn learn(&mut self, f: &Front) -> Result<(), Gone>
        requires { self.old.book ≡ Some f.now.book }
        ensures { MatchResult result (λ _. Learns f.now self.old self.new)
            (λ _. Misses self.old self.new) }
    {
        self.place.learn(f)?;
        self.entries = self.place.entries();
        Ok(())
    }
}
