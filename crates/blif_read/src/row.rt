ghost use Rattle.std.specs.Prelude.{◌≡◌, List, [], ◌∷◌, ◌++◌, length, map, IfOk, OnOk};
ghost use Rattle.blif_defs.specs.declared.mark.Mark.{Mark};
ghost use Rattle.blif_defs.specs.Rows.{mark_of};

use blif_defs::Mark;
use pch_base::NoMemory;
use std::alloc::{AllocError, Global};
use std::marker::Model;

/// A row of a cover: one mark for each of its inputs. Contracts see it as the list of the marks.
#[derive(Debug, Drop)]
pub struct Row {
    marks: Vec<Mark>,
}

impl Model for Row {
    ghost Value = { List Mark };

    ghost view = { λ r. r.marks.items };
}

impl Row {
    /// The row with these marks.
    pub fn from_marks(alloc: Global, m: &[Mark]) -> Result<Row, NoMemory>
        ensures { IfOk result (λ r. r ≡ m.now) }
    {
        let mut marks = Vec::new(alloc);
        marks.extend_from_slice(m)?;
        Ok(Row { marks })
    }

    /// The row that these bytes spell, each of which is `0`, `1` or `-`.
    pub(crate) fn from_bytes(alloc: Global, word: &[u8]) -> Result<Row, AllocError>
        ensures { IfOk result (λ r. r ≡ map mark_of word.now) }
    {
        let marks = word.iter().map(|b| mark_of(*b)).collect(alloc)?;
        Ok(Row { marks })
    }

    /// The marks of the row.
    pub fn marks(&self) -> &[Mark]
        ensures { result.now ≡ self.now }
    {
        &self.marks
    }
}

fn mark_of(b: u8) -> Mark
    ensures { result ≡ mark_of b }
{
    if b == b'0' {
        Mark::Zero
    } else if b == b'1' {
        Mark::One
    } else {
        Mark::Any
    }
}

/// A list of rows, which contracts see as the list of their marks.
#[derive(Debug, Drop)]
pub struct Rows {
    list: Vec<Row>,
}

impl Model for Rows {
    ghost Value = { List (List Mark) };

    ghost view = { λ r. r.list.items };
}

impl Rows {
    /// The rows of a vector, in its order.
    pub fn from_vec(list: Vec<Row>) -> Rows
        ensures { result ≡ list.items }
    {
        Rows { list }
    }

    /// The vector of the rows.
    pub fn into_vec(self) -> Vec<Row>
        ensures { result.items ≡ self }
    {
        let Rows { list } = self;
        list
    }

    /// The rows in their order.
    pub fn as_slice(&self) -> &[Row]
        ensures { result.now ≡ self.now }
    {
        &self.list
    }

    /// Appends a row.
    pub(crate) fn push(&mut self, row: Row) -> Result<(), AllocError>
        ensures { OnOk result (self.new ≡ self.old ++ row ∷ []) }
    {
        self.list.push(row)?;
        Ok(())
    }
}
