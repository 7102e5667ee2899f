//! From where evaluators look at tables, and what they do there.

ghost use Rattle.std.specs.Prelude.{◌≡◌, MatchResult};
ghost use Rattle.slot_core.specs.Values.{TableValue};
ghost use Rattle.live_table.specs.Values.{shape_of, PlaceValue};
ghost use Rattle.live_table.specs.Places.{Sees, Misses, seen_table};

use slot_core::Table;

/// A place refused to be entered.
#[derive(Clone, Copy, Debug, Drop, PartialEq, Eq)]
pub struct Gone;

/// What is done with one table, while its place is entered.
pub trait Task {
    // Of the task and a table: it can run on it.
    ghost can: { Self → TableValue → Type 0 };
    // Of the task before, a table, and the task after it ran on that table.
    ghost does: { Self → TableValue → Self → Type 0 };

    /// Runs on the table.
    fn on(&mut self, t: &Table)
        requires { can self.old t.now }
        ensures { does self.old t.now self.new };
}

/// From where tables of one device are looked at, one at a time.
pub trait Place {
    // Which history it is of, the shape of its tables, the entries that it has seen, and how often it
    // was refused.
    ghost value: { Self → PlaceValue };

    /// Enters one table and runs the task on it, once. The table's journal begins with all that this
    /// place has seen before, and all of it is seen afterwards. `Gone` comes only where the count of
    /// refusals rises or stands at its end, and leaves the task and what was seen as they were.
    fn enter<T: Task>(&mut self, task: &mut T) -> Result<(), Gone>
        requires { (t : TableValue) → shape_of t ≡ (value self.old).shape → T.can task.old t }
        ensures { MatchResult result (λ _. Sees (value self.old) (value self.new)
            × T.does task.old (seen_table (value self.new)) task.new)
            (λ _. Misses (value self.old) (value self.new) × (task.new ≡ task.old)) };
}
