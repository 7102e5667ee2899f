ghost use Rattle.std.specs.Prelude.{◌≡◌, ◌≤◌, ◌^◌, ◌↔◌, ◌+◌, ◌-◌, min, if◌then◌else◌, IsTrue, Contains, vec_items, false};
ghost use Rattle.pch_io.specs.Memory.{FailsNext, CountsCall};
ghost use Rattle.pch_io.specs.Outside.{Rose, CountsOnce};

use crate::faults::FaultCount;
use std::marker::Model;

/// Which calls of a store or a sink in memory are to fail, how many calls there were, and how many failed.
#[derive(Debug, Drop)]
pub struct Script {
    failing: Vec<u32>,
    made: u32,
    faults: FaultCount,
}

impl Model for Script {
    ghost use Rattle.pch_io.specs.Memory.{Calls};

    ghost Value = { Calls };

    ghost view = { λ s. record { failing = s.failing.items; made = s.made; faults = s.faults } };
}

impl Script {
    ghost use Rattle.pch_io.specs.Memory.{Calls};

    /// No call was made, and those with the numbers listed, counted from 1, are to fail.
    pub fn new(failing: Vec<u32>) -> Script
        ensures { result ≡ record { failing = failing.items; made = 0; faults = 0 } }
    {
        Script {
            failing,
            made: 0,
            faults: FaultCount::new(),
        }
    }

    /// Counts a call, and tells whether it is to fail.
    pub fn next_fails(&mut self) -> bool
        ensures fails { IsTrue result ↔ FailsNext self.old }
        ensures counted { CountsCall self.old self.new }
        ensures once { CountsOnce self.old.faults self.new.faults }
        ensures rose { IsTrue result → Rose self.old.faults self.new.faults }
        ensures calm { result ≡ false → self.new.faults ≡ self.old.faults }
    {
        self.made = self.made.saturating_add(1);
        let fails = self.failing.contains(&self.made);
        if fails {
            self.faults.raise();
        }
        fails
    }
}
