//! The commands of a lane, one after another.

ghost use Rattle.std.specs.Prelude.{◌≡◌, ◌<◌, ◌≤◌, length, map, All, IfOk, OnOk};
ghost use Rattle.script_defs.specs.Transcripts.{IsPrintable};
ghost use Rattle.run_script.specs.Replies.{reply_of};
ghost use Rattle.run_actors.specs.Loading.{contents_of, CanRun};
ghost use Rattle.run_actors.specs.Steps.{Answered};
ghost use Rattle.run_actors.specs.Progress.{IsSameDevice, RunsLane};

use crate::deliveries::deliver;
use crate::device::Device;
use crate::loaded::{Loaded, net_in};
use crate::turn::Turn;
use pch_base::NoMemory;
use pch_io::Gate;
use run_script::{Command, Items, Reply};
use std::alloc::Global;
use std::sync::Wait;
use std::thread::Threads;

/// Runs one command. Deliveries are checked by so many workers.
fn run_command<R: Threads + Wait + Sync, G: Gate>(
    rt: &R,
    alloc: Global,
    gate: &G,
    device: &mut Device,
    files: &[Loaded],
    workers: u32,
    at: Turn,
    command: &Command,
) -> Result<Reply, NoMemory>
    requires some_worker { 1 ≤ workers }
    requires workers { workers ≤ 64 }
    requires command { CanRun device.old.geometry device.old.slots (map contents_of files.now)
        command.now }
    ensures device { OnOk result (IsSameDevice device.old device.new) }
    ensures reply { IfOk result (λ r. Answered (map contents_of files.now)
        (length device.old.journal) at command.now (reply_of r) device.old device.new) }
{
    match command {
        Command::Agree { slot, file } => {
            let net = net_in(files, *file);
            gate.locked(rt, at.lane, at.number);
            device.agree(at, *slot, net)
        }
        Command::Deliver { slot, file } => deliver(
            rt, alloc, gate, device, files, workers, at, *slot, *file,
        ),
        Command::Evict { slot } => {
            gate.locked(rt, at.lane, at.number);
            device.evict(at, *slot)
        }
        Command::Cycle { slot, bits, probe } => Ok(device.cycle(*slot, *bits, *probe)),
        Command::Sweep { slot, first, count } => Ok(device.sweep(*slot, *first, *count)),
    }
}

/// Runs the commands of a lane and answers their replies.
pub(crate) fn run_lane<R: Threads + Wait + Sync, G: Gate>(
    rt: &R,
    alloc: Global,
    gate: &G,
    device: &mut Device,
    files: &[Loaded],
    workers: u32,
    lane: u32,
    commands: &[Command],
) -> Result<Items<Reply>, NoMemory>
    requires some_worker { 1 ≤ workers }
    requires workers { workers ≤ 64 }
    requires few { length commands.now ≤ 65536 }
    requires commands { All
        (CanRun device.old.geometry device.old.slots (map contents_of files.now)) commands.now }
    ensures printable { IfOk result (λ replies. All IsPrintable (map reply_of replies)) }
    ensures device { OnOk result (IsSameDevice device.old device.new) }
    ensures replies { IfOk result (λ replies. RunsLane (map contents_of files.now) lane
        commands.now (map reply_of replies) device.old device.new) }
{
    let mut replies = Items::new(alloc);
    for (number, command) in commands.iter().enumerate() {
        let at = Turn {
            lane,
            number: number as u32,
        };
        gate.pass(rt, at.lane, at.number);
        replies.push(run_command(rt, alloc, gate, device, files, workers, at, command)?)?;
    }
    gate.pass(rt, lane, commands.len() as u32);
    Ok(replies)
}
