ghost use Rattle.std.specs.Prelude.{◌≡◌, ◌≤◌, [], false, length, All, IfOk};
ghost use Rattle.live_table.specs.Places.{IsNewAt};

use crate::control::Control;
use crate::errors::OpenError;
use fabric::Geometry;
use live_table::Evaluator;
use std::alloc::Global;
use std::sync::Wait;

/// Opens a device of so many vacant slots, whose journal may have `limit` entries: its one control, and
/// so many evaluators, which have seen nothing yet. The room of all entries is taken here.
///
/// Where a reader's place is refused, it is asked for again.
pub fn open<R: Wait>(
    rt: &R,
    alloc: Global,
    g: Geometry,
    slots: u32,
    limit: u32,
    evaluators: u32,
) -> Result<(Control, Vec<Evaluator>), OpenError>
    requires slots { (1 ≤ slots) × (slots ≤ 16) }
    requires limit { (1 ≤ limit) × (limit ≤ 65536) }
    requires evaluators { (1 ≤ evaluators) × (evaluators ≤ 8) }
    ensures table { IfOk result (λ d. d.0.table
        ≡ record { geometry = g; slots = slots; limit = limit; journal = [] }) }
    ensures sound { IfOk result (λ d. d.0.broken ≡ false) }
    ensures count { IfOk result (λ d. length d.1.items ≡ evaluators) }
    ensures new { IfOk result (λ d. All (IsNewAt d.0) d.1.items) }
{
    let mut control = Control::open(rt, alloc, g, slots, limit, evaluators)?;
    match control.evaluators(rt, alloc, evaluators) {
        Ok(evaluators) => Ok((control, evaluators)),
        Err(_) => {
            control.close(rt);
            Err(OpenError::NoMemory)
        }
    }
}
