ghost use Rattle.std.specs.Prelude.{◌≡◌, ℕ, None};

use crate::faults::FaultCount;
use crate::sink::{PutFail, Sink};
use crate::whole::write_whole;
use std::io;

/// Standard output. It tells no content. Each failure raises the count of faults by one.
#[derive(Drop)]
pub struct OutSink<R: Print> {
    rt: R,
    faults: FaultCount,
}

impl<R: Print> OutSink<R> {
    /// The output of the program that the runtime stands for.
    pub fn new(rt: R) -> OutSink<R>
        ensures { result.faults ≡ 0 }
    {
        OutSink {
            rt,
            faults: FaultCount::new(),
        }
    }
}

impl<R: Print> Sink for OutSink<R> {
    ghost held = { λ _. None };

    ghost faults = { λ s. s.faults };

    fn put(&mut self, bytes: &[u8]) -> Result<(), PutFail> {
        let written = write_whole(&mut io::writer(&self.rt), bytes);
        if written.is_err() {
            self.faults.raise();
            return Err(PutFail::Failed);
        }
        Ok(())
    }
}
