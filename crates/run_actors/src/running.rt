//! A session whose lanes run one after another.

ghost use Rattle.std.specs.Prelude.{◌≡◌, map, IfOk};
ghost use Rattle.script_defs.specs.Scripts.{IsScript};
ghost use Rattle.script_defs.specs.Transcripts.{ArePrintable};
ghost use Rattle.session_defs.specs.Transcripts.{TranscriptOf};
ghost use Rattle.run_script.specs.Views.{script_of};
ghost use Rattle.run_script.specs.Replies.{transcript_of};
ghost use Rattle.run_actors.specs.Loading.{contents_of, AreOfKinds};

use crate::device::Device;
use crate::lanes::run_lane;
use crate::lines::lines_of;
use crate::loaded::Loaded;
use pch_base::NoMemory;
use pch_io::Gate;
use run_script::{Items, Script, Transcript};
use std::alloc::Global;
use std::sync::Wait;
use std::thread::Threads;

/// Runs the lanes of a script one after another on a device of its own, and answers a transcript of
/// the script and its files (`TranscriptOf`), of which each reply has a text (`ArePrintable`), or
/// that memory was wanting.
///
/// There is to be one loaded file for each that the script uses, of the kind that it is used as.
/// The gate is told of each command before it runs (`pass`), once more after the last one of a lane, of
/// each delivery that was accepted before it is installed (`checked`), and directly before an
/// agreement, an installation or an eviction is asked for (`locked`).
pub fn run_in_order<R: Threads + Wait + Sync, G: Gate>(
    rt: &R,
    alloc: Global,
    s: &Script,
    files: &[Loaded],
    gate: &G,
) -> Result<Transcript, NoMemory>
    requires script { IsScript (script_of s.now) }
    requires files { AreOfKinds s.now.files (map contents_of files.now) }
    ensures printable { IfOk result (λ t. ArePrintable (transcript_of t).lanes) }
    ensures transcript { IfOk result (λ t. TranscriptOf (script_of s.now)
        (map contents_of files.now) (transcript_of t)) }
{
    let mut device = Device::new(alloc, s.geometry, s.slots, s.limit)?;
    let mut lanes = Items::new(alloc);
    for (lane, commands) in s.lanes.as_slice().iter().enumerate() {
        let commands = commands.as_slice();
        let replies = run_lane(
            rt,
            alloc,
            gate,
            &mut device,
            files,
            s.workers,
            lane as u32,
            commands,
        )?;
        lanes.push(replies)?;
    }
    Ok(Transcript {
        journal: lines_of(alloc, &device.table)?,
        lanes,
    })
}
