//! The columns of mapped cells, which may stand in any order. A search goes from each cell to those to
//! which it listens, until it comes to cells whose columns are known. A cell is looked at once for each
//! of its pins, and once more, so the search takes time that is linear in the cells.

ghost use Rattle.std.specs.Prelude.{◌≡◌, ◌<◌, length, All, IfOk};
ghost use Rattle.map_defs.specs.Columns.{AreColumns};
ghost use Rattle.lut_map.specs.Search.{only_cells, HaveColumns};

use extract::{CellList, Source};
use std::alloc::{AllocError, Global};

/// How far the search has come with a cell.
#[derive(Clone, Copy, Debug)]
enum State {
    /// It wasn't met yet.
    New,
    /// It is on the stack: it was met, and its column isn't known yet.
    Open,
    /// It has this column.
    Done(u32),
}

/// What its pins say of a cell.
#[derive(Clone, Copy, Debug)]
enum Next {
    /// It listens to this cell, whose column isn't known yet.
    Wait(u32),
    /// It has this column.
    Column(u32),
}

/// A search for the columns of cells.
#[derive(Drop)]
struct Search {
    /// How far it has come with each cell.
    states: Vec<State>,
    /// The open cells: each listens to the next one.
    stack: Vec<u32>,
}

/// The column of each cell.
pub(crate) fn columns_of(alloc: Global, cells: &CellList) -> Result<Vec<u32>, AllocError>
    requires { HaveColumns cells.now }
    ensures columns { IfOk result (λ columns. AreColumns (only_cells cells.now) columns.items) }
    ensures small { IfOk result (λ columns.
        All (λ column. column < length cells.now) columns.items) }
{
    let mut search = Search::new(alloc, cells)?;
    for k in 0..cells.len() {
        search.find(cells, k)?;
    }
    search.into_columns(alloc)
}

impl State {
    ghost use Rattle.std.specs.Prelude.{◌≡◌};
    ghost use Rattle.lut_map.specs.Search.{is_new, column_of};

    /// Whether the cell wasn't met yet.
    fn is_new(self) -> bool
        ensures { result ≡ is_new self }
    {
        matches!(self, State::New)
    }

    /// The column of the cell; 0 where it isn't known.
    fn column(self) -> u32
        ensures { result ≡ column_of self }
    {
        match self {
            State::New | State::Open => 0,
            State::Done(column) => column,
        }
    }
}

impl Search {
    ghost use Rattle.std.specs.Prelude.{◌≡◌, ℕ, ◌-◌, ◌<◌, [], ◌∷◌, ◌++◌, length, map, take, slice_index, slice_set, OnOk, IfOk, All};
    ghost use Rattle.cell_defs.specs.Cells.{CellValue};
    ghost use Rattle.extract.specs.CellLists.{listed_cell};
    ghost use Rattle.map_defs.specs.declared.limits.TheConstants.{MAX_COUNT};
    ghost use Rattle.lut_map.specs.Search.{HaveColumns, IsCellBelow, state_at, column_of, after_source, after_pins, AreRight, StayMet};
    ghost use Rattle.lut_map.specs.Searches.{IsSound, work_of};
    ghost use Rattle.lut_map.specs.declared.columns.State.TheVariants.{New, Open, Done};

    /// No cell was met.
    fn new(alloc: Global, cells: &CellList) -> Result<Search, AllocError>
        ensures sound { IfOk result (IsSound cells.now) }
        ensures empty { IfOk result (λ s. s.stack.items ≡ []) }
    {
        Ok(Search {
            states: vec![in alloc; State::New; cells.len() as usize]?,
            stack: Vec::new(alloc),
        })
    }

    /// Finds the column of the cell and of all cells to which it listens.
    fn find(&mut self, cells: &CellList, root: u32) -> Result<(), AllocError>
        requires cells { HaveColumns cells.now }
        requires sound { IsSound cells.now self.old }
        requires empty { self.old.stack.items ≡ [] }
        requires within { root < length cells.now }
        ensures sound { OnOk result (IsSound cells.now self.new) }
        ensures empty { OnOk result (self.new.stack.items ≡ []) }
        ensures stay { OnOk result (StayMet self.old.states.items self.new.states.items) }
        ensures met { OnOk result (state_at self.new.states.items root ≡ New → ⊥) }
    {
        if !self.states[root as usize].is_new() {
            return Ok(());
        }
        self.open(root)?;
        while let Some(&last) = self.stack.last() {
            self.advance(cells, last)?;
        }
        Ok(())
    }

    /// Goes on with the last open cell: opens a cell to which it listens, or closes it.
    fn advance(&mut self, cells: &CellList, last: u32) -> Result<(), AllocError>
        requires cells { HaveColumns cells.now }
        requires sound { IsSound cells.now self.old }
        requires stacked { 0 < length self.old.stack.items }
        requires last { slice_index self.old.stack.items (length self.old.stack.items - 1) ≡ last }
        ensures sound { OnOk result (IsSound cells.now self.new) }
        ensures stay { OnOk result (StayMet self.old.states.items self.new.states.items) }
        ensures less { OnOk result (work_of self.new < work_of self.old) }
    {
        match self.after_pins(cells.get(last).pins) {
            Next::Wait(cell) => self.open(cell),
            Next::Column(column) => {
                self.close(last, column);
                Ok(())
            }
        }
    }

    /// What these pins say of their cell: its column, or the first cell that has to be waited for.
    fn after_pins(&self, pins: &[Source]) -> Next
        requires within { All (IsCellBelow (length self.now.states.items)) pins.now }
        requires small { (k column : ℕ) → state_at self.now.states.items k ≡ Done column
            → column < MAX_COUNT }
        ensures { result ≡ after_pins self.now.states.items 0 pins.now }
    {
        let mut column = 0;
        for pin in pins {
            match self.after(*pin) {
                Next::Wait(cell) => return Next::Wait(cell),
                Next::Column(after) => column = column.max(after),
            }
        }
        Next::Column(column)
    }

    /// What a source says of a cell that listens to it.
    fn after(&self, source: Source) -> Next
        requires within { IsCellBelow (length self.now.states.items) source }
        requires small { (k column : ℕ) → state_at self.now.states.items k ≡ Done column
            → column < MAX_COUNT }
        ensures { result ≡ after_source self.now.states.items source }
    {
        match source {
            Source::Zero | Source::Pad(_) => Next::Column(0),
            Source::Cell(cell) => match self.states[cell as usize] {
                State::New | State::Open => Next::Wait(cell),
                State::Done(column) => Next::Column(column + 1),
            },
        }
    }

    /// Puts a cell on the stack.
    fn open(&mut self, cell: u32) -> Result<(), AllocError>
        requires { cell < length self.old.states.items }
        ensures states { OnOk result
            (self.new.states.items ≡ slice_set self.old.states.items cell Open) }
        ensures stack { OnOk result (self.new.stack.items ≡ self.old.stack.items ++ cell ∷ []) }
    {
        self.stack.push(cell)?;
        self.states[cell as usize] = State::Open;
        Ok(())
    }

    /// Takes the last cell off the stack, whose column is this one.
    fn close(&mut self, last: u32, column: u32)
        requires { last < length self.old.states.items }
        ensures states { self.new.states.items
            ≡ slice_set self.old.states.items last (Done column) }
        ensures stack { self.new.stack.items
            ≡ take (length self.old.stack.items - 1) self.old.stack.items }
    {
        let _last = self.stack.pop();
        self.states[last as usize] = State::Done(column);
    }

    /// The columns that were found.
    fn into_columns(self, alloc: Global) -> Result<Vec<u32>, AllocError>
        ensures { IfOk result (λ columns. columns.items ≡ map column_of self.states.items) }
    {
        let mut columns = Vec::with_capacity(alloc, self.states.len())?;
        for state in &self.states {
            columns.push(state.column())?;
        }
        Ok(columns)
    }
}
