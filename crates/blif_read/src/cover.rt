ghost use Rattle.std.specs.Prelude.{◌≡◌};

use crate::names::Names;
use crate::row::Rows;
use pch_base::Name;
use std::marker::Model;

/// A cover: the output is `on` exactly where some row matches the inputs.
///
/// Each row has one mark for each of the inputs. A cover without rows has `on` set, so its output is
/// always 0. `cover_of` gives the plain record that definitions speak of.
#[derive(Debug, Drop)]
pub struct Cover {
    /// The names of the inputs; the same name may stand twice.
    pub ins: Names,
    /// The name of the output.
    pub out: Name,
    /// The value of the output where a row matches.
    pub on: bool,
    /// The rows.
    pub rows: Rows,
}

/// A list of covers, which contracts see as that list.
#[derive(Debug, Drop)]
pub struct Covers {
    list: Vec<Cover>,
}

impl Model for Covers {
    ghost use Rattle.std.specs.Prelude.{List};
    ghost use Rattle.blif_read.specs.declared.cover.Cover.{Cover};

    ghost Value = { List Cover };

    ghost view = { λ c. c.list.items };
}

impl Covers {
    /// The covers of a vector, in its order.
    pub fn from_vec(list: Vec<Cover>) -> Covers
        ensures { result ≡ list.items }
    {
        Covers { list }
    }

    /// The vector of the covers.
    pub fn into_vec(self) -> Vec<Cover>
        ensures { result.items ≡ self }
    {
        let Covers { list } = self;
        list
    }

    /// The covers in their order.
    pub fn as_slice(&self) -> &[Cover]
        ensures { result.now ≡ self.now }
    {
        &self.list
    }
}
