//! A gate for tests: it holds lanes at chosen points until others were reached.

use crate::gate::Gate;
use pch_base::NoMemory;
use std::alloc::Global;
use std::sync::Wait;
use std::sync::atomic::AtomicBool;
use std::sync::atomic::Ordering::SeqCst;

/// How often a flag is read at most before a hold is given up.
const TRIES: u32 = 200_000_000;

/// Which call of a gate.
#[derive(Clone, Copy, Debug, PartialEq, Eq)]
pub enum PointKind {
    /// Before a command of a lane, or after its last one.
    Pass,
    /// After a delivery was accepted by the check.
    Checked,
    /// Directly before a lane asks for a change of a slot.
    Locked,
}

/// A call of a gate. It is reached when it is entered.
#[derive(Clone, Copy, Debug, PartialEq, Eq)]
pub struct Point {
    /// Which call.
    pub kind: PointKind,
    /// The lane of which it tells, counted from 0.
    pub lane: u32,
    /// The turn of this lane, counted from 0.
    pub turn: u32,
}

/// That a lane is held at a point until another one was reached.
#[derive(Clone, Copy, Debug)]
pub struct Hold {
    /// Where a lane is held.
    pub at: Point,
    /// What ends the hold.
    pub until: Point,
}

/// A hold, and whether what ends it was reached.
#[derive(Drop)]
struct Flag {
    hold: Hold,
    reached: AtomicBool,
}

impl Flag {
    /// Reads the flag until it is raised, and tells whether it was within the tries.
    fn is_raised_in_time(&self) -> bool {
        for _ in 0..TRIES {
            if self.reached.load(SeqCst) {
                return true;
            }
        }
        false
    }
}

/// A gate that holds lanes at chosen points until others were reached, and gives up where that takes
/// too long. Tests bring lanes into an order by it that is seldom met.
#[derive(Drop)]
pub struct HoldGate {
    flags: Vec<Flag>,
    gave_up: AtomicBool,
}

impl HoldGate {
    /// A gate with these holds, which has reached no point.
    pub fn new(alloc: Global, holds: Vec<Hold>) -> Result<HoldGate, NoMemory> {
        let mut flags = Vec::new(alloc);
        for hold in holds {
            flags.push(Flag {
                hold,
                reached: AtomicBool::new(false),
            })?;
        }
        Ok(HoldGate {
            flags,
            gave_up: AtomicBool::new(false),
        })
    }

    /// Whether some hold wasn't ended in time.
    pub fn gave_up(&self) -> bool {
        self.gave_up.load(SeqCst)
    }

    /// Ends the holds until this point.
    fn reach(&self, point: Point) {
        for flag in &self.flags {
            if flag.hold.until == point {
                flag.reached.store(true, SeqCst);
            }
        }
    }

    /// Stays as long as there is a hold at this point.
    fn stay(&self, point: Point) {
        for flag in &self.flags {
            if flag.hold.at == point && !flag.is_raised_in_time() {
                self.gave_up.store(true, SeqCst);
            }
        }
    }

    /// Reaches the point, and stays there as long as there is a hold.
    fn enter(&self, kind: PointKind, lane: u32, turn: u32) {
        let point = Point { kind, lane, turn };
        self.reach(point);
        self.stay(point);
    }
}

impl Gate for HoldGate {
    fn pass<R: Wait>(&self, _rt: &R, lane: u32, turn: u32) {
        self.enter(PointKind::Pass, lane, turn)
    }

    fn checked<R: Wait>(&self, _rt: &R, lane: u32, turn: u32) {
        self.enter(PointKind::Checked, lane, turn)
    }

    fn locked<R: Wait>(&self, _rt: &R, lane: u32, turn: u32) {
        self.enter(PointKind::Locked, lane, turn)
    }
}
