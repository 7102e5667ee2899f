//! Deliveries: a bundle is checked against the agreed net, and installed where it is accepted.

ghost use Rattle.std.specs.Prelude.{◌≡◌, ◌≢◌, ◌<◌, ◌≤◌, length, map, IfOk};
ghost use Rattle.script_defs.specs.declared.command.Command.TheVariants.{Deliver};
ghost use Rattle.script_defs.specs.Transcripts.{refused as refused_reply};
ghost use Rattle.run_script.specs.Replies.{reply_of};
ghost use Rattle.run_actors.specs.Loading.{contents_of, IsBundle};
ghost use Rattle.run_actors.specs.Steps.{Answered};

use crate::device::Device;
use crate::loaded::{Loaded, bytes_in};
use crate::turn::Turn;
use netlist::Net;
use pch_base::NoMemory;
use pch_io::Gate;
use run_script::Reply;
use std::alloc::Global;
use std::sync::{Arc, Wait};
use std::thread::Threads;
use verify::{Refusal, verify};

/// The reply to a bundle that is refused, where the journal has `at` entries.
fn refused(refusal: Refusal, at: u32) -> Result<Reply, NoMemory>
    ensures { IfOk result (λ r. (reply_of r ≡ refused_reply refusal at)
        × (refusal ≢ Refusal.NoMemory)) }
{
    match refusal {
        Refusal::NoMemory => Err(NoMemory),
        _ => Ok(Reply::Refused { refusal, at }),
    }
}

/// Delivers the bundle of a file to the slot. It is checked by so many workers.
pub(crate) fn deliver<R: Threads + Wait + Sync, G: Gate>(
    rt: &R,
    alloc: Global,
    gate: &G,
    device: &mut Device,
    files: &[Loaded],
    workers: u32,
    at: Turn,
    slot: u32,
    file: u32,
) -> Result<Reply, NoMemory>
    requires some_worker { 1 ≤ workers }
    requires workers { workers ≤ 64 }
    requires slot { slot < device.old.slots }
    requires file { IsBundle (map contents_of files.now) file }
    ensures { IfOk result (λ r. Answered (map contents_of files.now) (length device.old.journal) at
        (Deliver slot file) (reply_of r) device.old device.new) }
{
    let checked = device.entries();
    let Some(net) = device.ticket(slot)? else {
        return Ok(Reply::Unagreed { at: checked });
    };
    let bytes = bytes_in(files, file);
    let g = device.geometry();
    let accepted = match verify(rt, alloc, &net, g, bytes, workers) {
        Ok(accepted) => accepted,
        Err(refusal) => return refused(refusal, checked),
    };
    gate.checked(rt, at.lane, at.number);
    gate.locked(rt, at.lane, at.number);
    device.install(at, slot, checked, accepted)
}
