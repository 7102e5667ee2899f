//! A net and cells with their numbering: what the clauses of the miter are made of. The calls here give
//! the literals of variables; the modules beside it write clauses of them.

ghost use Rattle.std.specs.Prelude.{◌≡◌, ◌<◌, ◌≤◌, length, IfOk};
ghost use Rattle.net_defs.specs.Networks.{node_at, signals};
ghost use Rattle.cell_defs.specs.Cells.{IsSourceBelow};
ghost use Rattle.fabric_defs.specs.Geometries.{cell_count};
ghost use Rattle.miter_defs.specs.Equality.{FitsPads};
ghost use Rattle.miter_defs.specs.Numberings.{zero_variable, signal_variable, node_variable, row_variable, cell_variable, difference_variable, source_variable};
ghost use Rattle.miter_defs.specs.Miters.{literal, positive};
ghost use Rattle.miter_cnf.specs.Circuits.{AreCircuits};

use crate::numbering::Numbering;
use cell_defs::Source;
use extract::Cells;
use netlist::Net;
use pch_base::{Lit, NoMemory};
use std::alloc::Global;
use std::marker::Model;

/// The variable that is false.
const ZERO_VARIABLE: u32 = 1;

/// A net beside the cells of a fabric that has a pad for each of its inputs and outputs.
#[derive(Drop)]
pub(crate) struct Circuits<'a> {
    pub(crate) net: &'a Net,
    pub(crate) cells: &'a Cells,
    /// The numbering of these two.
    pub(crate) numbering: Numbering,
}

impl<'a> Model for Circuits<'a> {
    ghost use Rattle.miter_cnf.specs.Circuits.{Circuits, AreNumbered};

    ghost Value = { Circuits };

    ghost view = { λ a. record { net = a.net.now; cells = a.cells.now } };

    ghost invariant = { λ a. AreNumbered a.net.now a.cells.now a.numbering };
}

/// The variable of a literal, or its negation.
pub(crate) fn signed(l: Lit, sign: bool) -> Lit
    ensures { result ≡ literal l.variable sign }
{
    Lit::from_parts(l.variable(), sign)
}

impl<'a> Circuits<'a> {
    /// A net and cells, numbered.
    pub(crate) fn of(
        alloc: Global,
        net: &'a Net,
        cells: &'a Cells,
    ) -> Result<Circuits<'a>, NoMemory>
        requires { FitsPads net.now cells.now.geometry }
        ensures circuits { IfOk result (λ a. a ≡ record { net = net.now; cells = cells.now }) }
        ensures known { AreCircuits net.now cells.now }
    {
        let numbering = Numbering::of(alloc, net, cells)?;
        Ok(Circuits {
            net,
            cells,
            numbering,
        })
    }

    /// The variable that is false.
    pub(crate) fn zero(&self) -> Lit
        ensures { result ≡ positive zero_variable }
    {
        Lit::from_parts(ZERO_VARIABLE, true)
    }

    /// A signal of the net.
    pub(crate) fn signal(&self, s: u32) -> Lit
        requires { s < signals self.now.net }
        ensures { result ≡ positive (signal_variable s) }
    {
        let numbering = &self.numbering;
        Lit::from_parts(numbering.signal(s), true)
    }

    /// Node `v` of the net.
    pub(crate) fn node(&self, v: u32) -> Lit
        requires { v < length self.now.net.nodes }
        ensures { result ≡ positive (node_variable self.now.net v) }
    {
        let numbering = &self.numbering;
        Lit::from_parts(numbering.node(v), true)
    }

    /// How many rows node `v` has.
    pub(crate) fn rows(&self, v: u32) -> u32
        requires { v < length self.now.net.nodes }
        ensures { result ≡ length (node_at self.now.net v).rows }
    {
        let numbering = &self.numbering;
        numbering.rows(v)
    }

    /// Row `r` of node `v`.
    pub(crate) fn row(&self, v: u32, r: u32) -> Lit
        requires node { v < length self.now.net.nodes }
        requires row { r < length (node_at self.now.net v).rows }
        ensures { result ≡ positive (row_variable self.now.net v r) }
    {
        let numbering = &self.numbering;
        Lit::from_parts(numbering.row(v, r), true)
    }

    /// Cell `k`.
    pub(crate) fn cell(&self, k: u32) -> Lit
        requires { k < cell_count self.now.cells.geometry }
        ensures { result ≡ positive (cell_variable self.now.net self.now.cells k) }
    {
        let numbering = &self.numbering;
        Lit::from_parts(numbering.cell_or_next(k), true)
    }

    /// Where a pin or an output pad listens.
    pub(crate) fn source(&self, source: Source) -> Lit
        requires { IsSourceBelow
            self.now.cells.geometry.input_pads
            (cell_count self.now.cells.geometry) source }
        ensures { result ≡ positive (source_variable self.now.net self.now.cells source) }
    {
        match source {
            Source::Pad(p) if p < self.net.inputs() => self.signal(p),
            Source::Cell(k) => self.cell(k),
            _ => self.zero(),
        }
    }

    /// Whether output `o` and its pad differ.
    pub(crate) fn difference(&self, o: u32) -> Lit
        requires { o < length self.now.net.outputs }
        ensures { result ≡ positive (difference_variable self.now.net self.now.cells o) }
    {
        let numbering = &self.numbering;
        Lit::from_parts(numbering.difference(o), true)
    }
}
