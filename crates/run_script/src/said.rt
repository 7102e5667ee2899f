//! What a line of a lane says by itself.
ghost use Rattle.std.specs.Prelude.{◌≡◌};
ghost use Rattle.std.specs.Option.{option_map};
ghost use Rattle.script_defs.specs.Commands.{named_by, evict_by, cycle_by, sweep_by, plain_by, said_by};
ghost use Rattle.blif_read.specs.Views.{texts};
ghost use Rattle.run_script.specs.Readers.{plain_said, said_of};

use crate::numbers::{bits_of, count_of, long_number_of, number_below};
use script_defs::{Command, Kind, MAX_SWEEP};

/// A command, or one that names a file, which is read as this kind, with its slot.
#[derive(Clone, Copy, Debug)]
pub(crate) enum Said<'a> {
    Plain {
        command: Command,
    },
    Named {
        kind: Kind,
        slot: u32,
        name: &'a [u8],
    },
}

/// `SLOT FILE`
fn named_by<'a>(kind: Kind, slots: u32, more: &[&'a [u8]]) -> Option<Said<'a>>
    ensures { option_map said_of result ≡ named_by kind slots (texts more.now) }
{
    let [slot, name] = more else {
        return None;
    };
    Some(Said::Named {
        kind,
        slot: number_below(slots, slot)?,
        name,
    })
}

/// `SLOT`
fn evict_by(slots: u32, more: &[&[u8]]) -> Option<Command>
    ensures { option_map plain_said result ≡ evict_by slots (texts more.now) }
{
    let [slot] = more else {
        return None;
    };
    Some(Command::Evict {
        slot: number_below(slots, slot)?,
    })
}

/// `SLOT BITS PROBE`
fn cycle_by(slots: u32, cells: u32, more: &[&[u8]]) -> Option<Command>
    ensures { option_map plain_said result ≡ cycle_by slots cells (texts more.now) }
{
    let [slot, bits, probe] = more else {
        return None;
    };
    Some(Command::Cycle {
        slot: number_below(slots, slot)?,
        bits: bits_of(bits)?,
        probe: number_below(cells, probe)?,
    })
}

/// `SLOT FIRST COUNT`
fn sweep_by(slots: u32, more: &[&[u8]]) -> Option<Command>
    ensures { option_map plain_said result ≡ sweep_by slots (texts more.now) }
{
    let [slot, first, count] = more else {
        return None;
    };
    Some(Command::Sweep {
        slot: number_below(slots, slot)?,
        first: long_number_of(first)?,
        count: count_of(count, MAX_SWEEP)?,
    })
}

/// What a line with this first word and these others says, of a device with so many slots and so many
/// cells to a slot.
pub(crate) fn said_by<'a>(
    slots: u32,
    cells: u32,
    first: &[u8],
    more: &[&'a [u8]],
) -> Option<Said<'a>>
    ensures { option_map said_of result ≡ said_by slots cells first.now (texts more.now) }
{
    if first == b"agree".as_slice() {
        return named_by(Kind::Spec, slots, more);
    }
    if first == b"deliver".as_slice() {
        return named_by(Kind::Bundle, slots, more);
    }
    let command = plain_by(slots, cells, first, more)?;
    Some(Said::Plain { command })
}

/// The same for the commands that name no file.
fn plain_by(slots: u32, cells: u32, first: &[u8], more: &[&[u8]]) -> Option<Command>
    ensures { option_map plain_said result ≡ plain_by slots cells first.now (texts more.now) }
{
    if first == b"evict".as_slice() {
        evict_by(slots, more)
    } else if first == b"cycle".as_slice() {
        cycle_by(slots, cells, more)
    } else if first == b"sweep".as_slice() {
        sweep_by(slots, more)
    } else {
        None
    }
}
