//! The lines in front of the lanes: the fabric, and the numbers of slots, entries and workers.
ghost use Rattle.std.specs.Prelude.{◌≡◌};
ghost use Rattle.std.specs.Option.{option_map};
ghost use Rattle.fabric_defs.specs.declared.limits.TheConstants.{MAX_SIDE, MAX_TRACKS};
ghost use Rattle.text_defs.specs.Numbers.{positive_within};
ghost use Rattle.script_defs.specs.Commands.{fabric_with, fabric_line, only_count, count_line};
ghost use Rattle.script_defs.specs.Reading.{next_head};
ghost use Rattle.blif_read.specs.Views.{texts};
ghost use Rattle.run_script.specs.Readers.{head_of};

use crate::numbers::count_of;
use fabric::Geometry;
use fabric_defs::{MAX_SIDE, MAX_TRACKS};
use script_defs::{MAX_JOURNAL, MAX_SLOTS, MAX_WORKERS};

/// Which of these lines were there, with what they say. They come in this order.
#[derive(Clone, Copy, Debug)]
pub(crate) enum Head {
    Nothing,
    Fabric {
        geometry: Geometry,
    },
    Slots {
        geometry: Geometry,
        slots: u32,
    },
    Limit {
        geometry: Geometry,
        slots: u32,
        limit: u32,
    },
    Whole {
        geometry: Geometry,
        slots: u32,
        limit: u32,
        workers: u32,
    },
}

/// The fabric whose columns, rows, tracks, input pads and output pads the words say.
fn fabric_of(c: &[u8], r: &[u8], t: &[u8], i: &[u8], o: &[u8]) -> Option<Geometry>
    ensures { result ≡ fabric_with (positive_within MAX_SIDE c.now) (positive_within MAX_SIDE r.now)
        (positive_within MAX_TRACKS t.now) (positive_within MAX_SIDE i.now)
        (positive_within MAX_SIDE o.now) }
{
    Geometry::new(
        count_of(c, MAX_SIDE)?,
        count_of(r, MAX_SIDE)?,
        count_of(t, MAX_TRACKS)?,
        count_of(i, MAX_SIDE)?,
        count_of(o, MAX_SIDE)?,
    )
}

/// The fabric of a line with this first word and these others.
fn fabric_line(first: &[u8], more: &[&[u8]]) -> Option<Geometry>
    ensures { result ≡ fabric_line first.now (texts more.now) }
{
    if first != b"fabric".as_slice() {
        return None;
    }
    match more {
        [c, r, t, i, o] => fabric_of(c, r, t, i, o),
        _ => None,
    }
}

/// The number from 1 to the limit of a line of this word.
fn count_line(word: &[u8], limit: u32, first: &[u8], more: &[&[u8]]) -> Option<u32>
    ensures { result ≡ count_line word.now limit first.now (texts more.now) }
{
    if first != word {
        return None;
    }
    match more {
        [number] => count_of(number, limit),
        _ => None,
    }
}

impl Head {
    /// What the lines say with one line more, which has this first word and these others. None where
    /// that line can't come next.
    pub(crate) fn next(&self, first: &[u8], more: &[&[u8]]) -> Option<Head>
        ensures { option_map head_of result ≡ next_head (head_of self.now) first.now (texts more.now) }
    {
        match *self {
            Head::Nothing => Some(Head::Fabric {
                geometry: fabric_line(first, more)?,
            }),
            Head::Fabric { geometry } => Some(Head::Slots {
                geometry,
                slots: count_line(b"slots", MAX_SLOTS, first, more)?,
            }),
            Head::Slots { geometry, slots } => Some(Head::Limit {
                geometry,
                slots,
                limit: count_line(b"limit", MAX_JOURNAL, first, more)?,
            }),
            Head::Limit {
                geometry,
                slots,
                limit,
            } => Some(Head::Whole {
                geometry,
                slots,
                limit,
                workers: count_line(b"workers", MAX_WORKERS, first, more)?,
            }),
            Head::Whole { .. } => None,
        }
    }
}
