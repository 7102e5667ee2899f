ghost use Rattle.std.specs.Prelude.{◌≡◌, ◌≤◌, ◌++◌, ◌↔◌, ℕ, List, [], Option, Some, OnOk, OnErr, IsErrOf, Contains};
ghost use Rattle.pch_io.specs.Outside.{Rose, CountsOnce, Appends, AppendsPrefix};
ghost use Rattle.pch_io.specs.Memory.{FailsNext, CountsCall};

use crate::calls::Script;
use crate::sink::{PutFail, Sink};
use std::alloc::Global;
use std::marker::Model;

/// A sink in memory, of which chosen calls fail.
///
/// Puts are counted from 1. A put whose number was listed answers `Failed` and appends nothing.
#[derive(Debug, Drop)]
pub struct MemSink {
    bytes: Vec<u8>,
    script: Script,
}

impl Model for MemSink {
    ghost use Rattle.pch_io.specs.Memory.{Sunk};

    ghost Value = { Sunk };

    ghost view = { λ s. record { bytes = s.bytes.items; calls = s.script } };
}

impl MemSink {
    /// An empty sink, of which the puts with the listed numbers fail.
    pub fn new(alloc: Global, failing: Vec<u32>) -> MemSink
        ensures { result ≡ record {
          bytes = [];
          calls = record { failing = failing.items; made = 0; faults = 0 };
        } }
    {
        MemSink {
            bytes: Vec::new(alloc),
            script: Script::new(failing),
        }
    }

    /// What the sink holds.
    pub fn bytes(&self) -> &[u8]
        ensures { result.now ≡ self.now.bytes }
    {
        &self.bytes
    }
}

impl Sink for MemSink {
    ghost held = { λ s. Some s.bytes };

    ghost faults = { λ s. s.calls.faults };

    fn put(&mut self, bytes: &[u8]) -> Result<(), PutFail>
        ensures once { CountsOnce self.old.calls.faults self.new.calls.faults }
        ensures calm { OnOk result (self.new.calls.faults ≡ self.old.calls.faults) }
        ensures appended { OnOk result
            (Appends (Some self.old.bytes) (Some self.new.bytes) bytes.now) }
        ensures cut_off { OnErr result
            (AppendsPrefix (Some self.old.bytes) (Some self.new.bytes) bytes.now) }
        ensures failed { IsErrOf result PutFail.Failed
            → Rose self.old.calls.faults self.new.calls.faults }
        ensures unchanged { OnErr result (self.new.bytes ≡ self.old.bytes) }
        ensures failed_exactly { IsErrOf result PutFail.Failed ↔ FailsNext self.old.calls }
        ensures counted { CountsCall self.old.calls self.new.calls }
    {
        if self.script.next_fails() {
            return Err(PutFail::Failed);
        }
        if self.bytes.extend_from_slice(bytes).is_err() {
            return Err(PutFail::NoMemory);
        }
        Ok(())
    }
}
