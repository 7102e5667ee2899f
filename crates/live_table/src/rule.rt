//! The rule of the published copies. A view is what was seen last: a copy, or none yet. `specs/Rule` says
//! what holds between any two steps.

use crate::published::{Change, Published};
use atomic_table::{Join, Split};
use crossbeam_utils::rule::{Outcome, Protocol};
use left_right::reader::Reader;
use left_right::writer::Writer;

/// What one party has seen last. No value of it is made.
pub(crate) type View = Option<Published>;

/// The rule: whatever was seen is a beginning of what is published.
pub(crate) struct OneJournal;

impl Protocol<Published, View> for OneJournal {
    ghost use Rattle.std.specs.Prelude.{None};
    ghost use Rattle.live_table.specs.Rule.{IsKept};

    ghost holds = { IsKept };

    ghost first = { None };
}

/// Looking at a copy, or publishing one.
pub(crate) struct Meet;

impl Outcome<Published, View> for Meet {
    ghost use Rattle.live_table.specs.Rule.{Meets};

    ghost then = { Meets };
}

/// A copy of a view.
pub(crate) struct Whole;

impl Split<View> for Whole {
    ghost left = { λ v. v };

    ghost right = { λ v. v };
}

/// The view that is told, in place of that of a newcomer.
impl Join<View> for Whole {
    ghost use Rattle.std.specs.Prelude.{None};

    ghost both = { λ v w. w };

    ghost spent = { None };
}

/// A reader of the published copies.
pub(crate) type TableReader = Reader<Published, View, OneJournal>;

/// The writer of the published copies.
pub(crate) type TableWriter = Writer<Published, Change, View, OneJournal>;
