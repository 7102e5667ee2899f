ghost use Rattle.std.specs.Prelude.{◌≡◌, ℕ, List, IfOk};

use crate::memory::NoMemory;
use std::alloc::Global;
use std::marker::Model;

/// A name of a signal, a model or a file: a list of bytes, which contracts see as that list.
#[derive(Debug, Drop)]
pub struct Name {
    bytes: Vec<u8>,
}

impl Model for Name {
    ghost Value = { List ℕ };

    ghost view = { λ n. n.bytes.items };
}

impl Name {
    /// The name with these bytes.
    pub fn from_bytes(alloc: Global, b: &[u8]) -> Result<Name, NoMemory>
        ensures { IfOk result (λ n. n ≡ b.now) }
    {
        Ok(Name {
            bytes: b.to_vec(alloc)?,
        })
    }

    /// The bytes of the name.
    pub fn bytes(&self) -> &[u8]
        ensures { result.now ≡ self.now }
    {
        &self.bytes
    }
}
