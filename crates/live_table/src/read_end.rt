ghost use Rattle.std.specs.Prelude.{◌≡◌};
ghost use Rattle.live_table.specs.declared.read_end.ReadEnd.TheVariants as ends;

use crate::place::Gone;
use pch_base::NoMemory;
use thiserror::Error;

/// Why an evaluator that copies a net has no answer.
#[derive(Clone, Copy, Debug, Drop, Error, PartialEq, Eq)]
pub enum ReadEnd {
    /// The published copies refused to be entered.
    #[error("refused to enter")]
    Gone,
    /// Memory was wanting. The evaluator may have seen more than before.
    #[error("no memory")]
    NoMemory,
}

impl From<Gone> for ReadEnd {
    ghost from_gives = { λ _ e. e ≡ ends.Gone };

    fn from(_: Gone) -> ReadEnd {
        ReadEnd::Gone
    }
}

impl From<NoMemory> for ReadEnd {
    ghost from_gives = { λ _ e. e ≡ ends.NoMemory };

    fn from(_: NoMemory) -> ReadEnd {
        ReadEnd::NoMemory
    }
}
