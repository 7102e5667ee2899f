ghost use Rattle.std.specs.Prelude.{◌≡◌, ℕ, List, IfOk, IfErr};
ghost use Rattle.blif_defs.specs.declared.error.BlifError.TheVariants.{NoMemory};

use blif_defs::BlifError;
use pch_base::Name;
use std::alloc::Global;
use std::marker::Model;

/// A list of names, which contracts see as the list of their bytes.
#[derive(Debug, Drop)]
pub struct Names {
    list: Vec<Name>,
}

impl Model for Names {
    ghost Value = { List (List ℕ) };

    ghost view = { λ n. n.list.items };
}

impl Names {
    /// The names of a vector, in its order.
    pub fn from_vec(list: Vec<Name>) -> Names
        ensures { result ≡ list.items }
    {
        Names { list }
    }

    /// The vector of the names.
    pub fn into_vec(self) -> Vec<Name>
        ensures { result.items ≡ self }
    {
        let Names { list } = self;
        list
    }

    /// The names in their order.
    pub fn as_slice(&self) -> &[Name]
        ensures { result.now ≡ self.now }
    {
        &self.list
    }
}

/// The name with these bytes.
pub(crate) fn name_of(alloc: Global, bytes: &[u8]) -> Result<Name, BlifError>
    ensures ok { IfOk result (λ name. name ≡ bytes.now) }
    ensures err { IfErr result (λ e. e ≡ NoMemory) }
{
    match Name::from_bytes(alloc, bytes) {
        Ok(name) => Ok(name),
        Err(_) => Err(BlifError::NoMemory),
    }
}
