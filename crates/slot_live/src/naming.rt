use std::marker::Brand;
use std::sync::ledger::Ledger;

/// Names one `open`, with the shape of its tables, beside a ledger that counts its entries. It is for
/// contracts alone: whoever calls a function over such a name picks its members.
pub trait Naming: Ledger {
    ghost use Rattle.logbook.specs.Pages.{Book};
    ghost use Rattle.live_table.specs.Values.{Shape};

    // The book of the history of this `open`.
    ghost book: { Book };

    ghost shape: { Shape };
}

impl Naming for Brand {
    ghost use Rattle.live_table.specs.Values.{no_shape};

    ghost book = { record { number = 0; log_name = 0; cells_name = 0 } };

    ghost shape = { no_shape };
}
