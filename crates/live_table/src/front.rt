//! Fronts: beginnings of the journal that were reached. The entries of one `open` make one history, which
//! only grows and is of no other `open`; it exists in proofs alone, but for a word with its length.

ghost use Rattle.std.specs.Prelude.{◌≡◌, ◌+◌, ◌-◌, ◌^◌, ◌<◌, [], ◌∷◌, ◌++◌, length, IsTrue, IfSome};
ghost use mathlib.Core.List.{IsPrefix};
ghost use Rattle.live_table.specs.Histories.{head_of};

use logbook::{Gain, Offer, Plain, Play, Rule, Seen, Start, Word};
use slot_core::Ready;
use std::marker::Model;

/// The rule of a history: its word is its length.
pub(crate) struct Counting;

impl Rule<Ready, u64> for Counting {
    ghost use Rattle.std.specs.Prelude.{[]};
    ghost use base.Fml.{ftrue};
    ghost use Rattle.live_table.specs.Histories.{IsCounted};

    ghost holds = { λ cells log. IsCounted cells log };

    ghost first = { [] };

    ghost hinted = { λ n log. Unit {0} };

    ghost shows = { λ log. [] };

    ghost keeps = { λ names log. ftrue };

    ghost moves = { λ ask before after answer. Unit {0} };
}

/// Who adds an entry gains nothing beside it.
struct Nothing;

impl Gain<Ready, u64> for Nothing {
    ghost use base.Fml.{ftrue};

    ghost after = { λ names about answer. ftrue };
}

/// The step that adds an entry.
struct Add;

impl Play<Ready, u64> for Add {
    ghost use Rattle.live_table.specs.Histories.{Adds};

    ghost then = { Adds };
}

impl Plain<Ready, Ready, u64> for Add {
    ghost use Rattle.std.specs.Prelude.{None};

    ghost ask = { λ entry. entry };

    ghost state = { λ entry. None };
}

/// The word with the length of a history.
pub(crate) type Head = Word<Ready, u64, Counting>;

/// Stands for a beginning of the journal of one `open`. Contracts see which history it is of, and the
/// entries.
#[derive(Drop)]
pub struct Front {
    /// How many entries there are.
    entries: u32,
    seen: Seen<Ready, u64, Counting>,
}

impl Model for Front {
    ghost use Rattle.std.specs.Prelude.{◌≡◌, length};
    ghost use Rattle.live_table.specs.Values.{FrontValue};

    ghost Value = { FrontValue };

    ghost view = { λ f. record { book = f.seen.book; journal = f.seen.log } };

    ghost invariant = { λ f. f.entries ≡ length f.seen.log };
}

impl Front {
    /// The word of a new history, and the front of its beginning without entries.
    pub(crate) fn opened() -> (Head, Front)
        ensures head { result.0 ≡ head_of result.1.book }
        ensures empty { result.1.journal ≡ [] }
    {
        let (seen, mut first, _second) = Seen::open(Start::alone(), 0, 0);
        (Word::tracked(0, &mut first), Front { entries: 0, seen })
    }

    /// How many entries there are.
    pub(crate) fn len(&self) -> u32
        ensures { result ≡ length self.now.journal }
    {
        self.entries
    }

    /// A copy.
    pub(crate) fn again(&self) -> Front
        ensures { result ≡ self.now }
    {
        Front {
            entries: self.entries,
            seen: self.seen.again(),
        }
    }

    /// Whether this one is no shorter than the other, which is of the same history. Then it begins
    /// with the other.
    pub(crate) fn has(&self, other: &Front) -> bool
        requires { other.now.book ≡ self.now.book }
        ensures { IsTrue result → IsPrefix other.now.journal self.now.journal }
    {
        let mut both = self.seen.again();
        both.learn(&other.seen);
        other.entries <= self.entries
    }

    /// Adds the entry to the history behind all that this front stands for. `None` where the history
    /// goes on already.
    pub(crate) fn with(&self, head: &Head, entry: &Ready) -> Option<Front>
        requires room { length self.now.journal < 2 ^ 32 - 1 }
        requires head { head.now ≡ head_of self.now.book }
        ensures { IfSome result (λ f. f ≡ record {
          book = self.now.book;
          journal = self.now.journal ++ entry.now ∷ [];
        }) }
    {
        let mut seen = self.seen.again();
        let mut offer: Offer<Ready, u64, Counting, Nothing> = seen.plain::<Nothing, Ready, Add>(
            entry,
        );
        let mut pen = seen.no_pen();
        let old = u64::from(self.entries);
        let found = head.compare_exchange::<Add, Nothing>(
            old,
            old + 1,
            &mut seen,
            &mut offer,
            &mut pen,
        );
        if found == old {
            Some(Front {
                entries: self.entries + 1,
                seen,
            })
        } else {
            None
        }
    }
}
