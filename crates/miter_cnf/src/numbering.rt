//! The variables of the miter, from what a net and cells are made of.

ghost use Rattle.std.specs.Prelude.{◌≡◌, ◌+◌, ◌<◌, ◌≤◌, length, slice_get, slice_index, Some, true, IfOk};
ghost use Rattle.clause_defs.specs.declared.verdict.TheConstants.{MAX_VARIABLE};
ghost use Rattle.net_defs.specs.Networks.{Network};
ghost use Rattle.cell_defs.specs.Cells.{CellsValue};
ghost use Rattle.miter_defs.specs.Equality.{FitsPads};
ghost use Rattle.miter_defs.specs.Numberings.{signal_variable, node_variable, row_variable, cell_variable, difference_variable, variable_count};
ghost use Rattle.miter_cnf.specs.Numbered.{numbering_of, IsVariable};
ghost use Rattle.miter_cnf.specs.Circuits.{AreCircuits};

use crate::sums::{count_flags, flags_before, row_counts, sums_before};
use extract::Cells;
use netlist::Net;
use pch_base::NoMemory;
use std::alloc::Global;
use std::marker::Model;

/// The variable of the first signal; before it stands the one that is false.
const FIRST_SIGNAL: u32 = 2;

/// The variables of the miter of a net and cells, counted from 1.
///
/// Contracts see on what they rest: how many inputs and outputs there are, how many rows each node
/// has, and which cells are in the cone. `numbering_of` gives this for a net and cells.
#[derive(Debug, Drop)]
pub struct Numbering {
    /// How many inputs the net has.
    inputs: u32,
    /// How many rows each node has.
    rows: Vec<u32>,
    /// For each cell whether it is in the cone.
    cone: Vec<bool>,
    /// How many outputs the net has, at least one.
    outputs: u32,
    /// The variable of the first row of each node.
    first_rows: Vec<u32>,
    /// The variable of each cell of the cone; where a cell is outside it, that of the next one.
    cells: Vec<u32>,
    /// The variable of the difference of output 0.
    first_difference: u32,
}

impl Model for Numbering {
    ghost use Rattle.miter_cnf.specs.Numbered.{NumberingValue, IsNumbering};

    ghost Value = { NumberingValue };

    ghost view = { λ m. record {
      inputs = m.inputs;
      rows = m.rows.items;
      cone = m.cone.items;
      outputs = m.outputs;
    } };

    ghost invariant = { λ m.
        IsNumbering (record {
          inputs = m.inputs;
          rows = m.rows.items;
          cone = m.cone.items;
          outputs = m.outputs;
        })
        m.first_rows.items m.cells.items m.first_difference };
}

impl Numbering {
    /// The numbering of a net and cells, where the fabric has a pad for each input and output of the net.
    pub fn of(alloc: Global, net: &Net, cells: &Cells) -> Result<Numbering, NoMemory>
        requires { FitsPads net.now cells.now.geometry }
        ensures numbering { IfOk result (λ m. m ≡ numbering_of net.now cells.now) }
        ensures circuits { AreCircuits net.now cells.now }
    {
        let inputs = net.inputs();
        let cone = Vec::from_slice(alloc, cells.cone())?;
        let rows = row_counts(alloc, net)?;
        let first_row = FIRST_SIGNAL + (inputs + net.nodes());
        let first_cell = first_row + net.rows();
        Ok(Numbering {
            inputs,
            outputs: net.outputs(),
            first_rows: sums_before(alloc, first_row, &rows)?,
            cells: flags_before(alloc, first_cell, &cone)?,
            first_difference: first_cell + count_flags(&cone) as u32,
            rows,
            cone,
        })
    }

    /// The variable of signal `s`; signals are the inputs and then the nodes.
    pub(crate) fn signal(&self, s: u32) -> u32
        requires { s < self.now.inputs + length self.now.rows }
        ensures variable { result ≡ signal_variable s }
        ensures within { IsVariable result }
    {
        let _inputs = self.inputs;
        FIRST_SIGNAL + s
    }

    /// The variable of input `i`.
    pub fn input(&self, i: u32) -> u32
        requires { i < self.now.inputs }
        ensures variable { result ≡ signal_variable i }
        ensures within { IsVariable result }
    {
        self.signal(i)
    }

    /// The variable of node `v`.
    pub fn node(&self, v: u32) -> u32
        requires { v < length self.now.rows }
        ensures variable { (net : Network) (cells : CellsValue) → self.now ≡ numbering_of net cells
            → result ≡ node_variable net v }
        ensures within { IsVariable result }
    {
        self.signal(self.inputs + v)
    }

    /// How many rows node `v` has.
    pub(crate) fn rows(&self, v: u32) -> u32
        requires { v < length self.now.rows }
        ensures { result ≡ slice_index self.now.rows v }
    {
        self.rows[v as usize]
    }

    /// The variable of row `r` of node `v`.
    pub fn row(&self, v: u32, r: u32) -> u32
        requires node { v < length self.now.rows }
        requires row { r < slice_index self.now.rows v }
        ensures variable { (net : Network) (cells : CellsValue) → self.now ≡ numbering_of net cells
            → result ≡ row_variable net v r }
        ensures within { IsVariable result }
    {
        self.first_rows[v as usize] + r
    }

    /// The variable of cell `k`, which is in the cone.
    pub fn cell(&self, k: u32) -> u32
        requires { slice_get self.now.cone k ≡ Some true }
        ensures variable { (net : Network) (cells : CellsValue) → self.now ≡ numbering_of net cells
            → result ≡ cell_variable net cells k }
        ensures within { IsVariable result }
    {
        self.cell_or_next(k)
    }

    /// The variable of cell `k`; where it is outside the cone, the variable after those of the cells of
    /// the cone before it.
    pub(crate) fn cell_or_next(&self, k: u32) -> u32
        requires { k < length self.now.cone }
        ensures variable { (net : Network) (cells : CellsValue) → self.now ≡ numbering_of net cells
            → result ≡ cell_variable net cells k }
        ensures within { IsVariable result }
    {
        self.cells[k as usize]
    }

    /// The variable that says whether output `o` of the net and output pad `o` differ.
    pub fn difference(&self, o: u32) -> u32
        requires { o < self.now.outputs }
        ensures variable { (net : Network) (cells : CellsValue) → self.now ≡ numbering_of net cells
            → result ≡ difference_variable net cells o }
        ensures within { IsVariable result }
    {
        self.first_difference + o
    }

    /// How many variables there are.
    pub fn variables(&self) -> u32
        ensures count { (net : Network) (cells : CellsValue) → self.now ≡ numbering_of net cells
            → result ≡ variable_count net cells }
        ensures few { result ≤ MAX_VARIABLE }
    {
        self.first_difference + self.outputs - 1
    }
}
