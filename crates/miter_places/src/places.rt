ghost use Rattle.std.specs.Prelude.{◌≡◌, ◌^◌, ◌<◌, ◌≤◌, length, slice_index, IfOk};
ghost use Rattle.net_defs.specs.Networks.{Network};
ghost use Rattle.net_defs.specs.Nets.{IsNet};
ghost use Rattle.std.specs.List.{count_by};
ghost use Rattle.fabric_defs.specs.Numbered.{list_of, joined};
ghost use Rattle.fabric_defs.specs.Geometries.{table_bits};
ghost use Rattle.miter_defs.specs.Miters.{node_clauses, cell_clauses, Miter};
ghost use Rattle.miter_places.specs.Places.{is_asked, first_of_node, places_of};

use blif_read::Mark;
use extract::Cells;
use fabric::Geometry;
use netlist::Net;
use pch_base::NoMemory;
use sat_values::ClauseSet;
use std::alloc::{AllocError, Global};
use std::marker::Model;

/// The number of the first clause of a node.
const FIRST_OF_NODES: u32 = 2;

/// How many clauses an output has.
const CLAUSES_OF_OUTPUT: u32 = 4;

/// Where the clauses of the parts of a miter begin, by their numbers, counted from 1.
///
/// Contracts see these numbers; `places_of` gives them for a net and cells.
#[derive(Debug, Drop)]
pub struct Places {
    /// The first clause of each node.
    nodes: Vec<u32>,
    /// The first clause of the cells.
    cells: u32,
    /// The first clause of the outputs.
    outputs: u32,
}

impl Model for Places {
    ghost use Rattle.miter_places.specs.Places.{PlacesValue};

    ghost Value = { PlacesValue };

    ghost view = { λ p. record { nodes = p.nodes.items; cells = p.cells; outputs = p.outputs } };
}

impl Places {
    /// The places of the miter of a net and cells, which `formula` is.
    pub fn of(
        alloc: Global,
        net: &Net,
        cells: &Cells,
        formula: &ClauseSet,
    ) -> Result<Places, NoMemory>
        requires { formula.now ≡ Miter net.now cells.now }
        ensures { IfOk result (λ p. p ≡ places_of net.now cells.now) }
    {
        let clauses = formula.len();
        let nodes = first_of_nodes(alloc, net)?;
        let outputs = clauses - CLAUSES_OF_OUTPUT * net.outputs();
        Ok(Places {
            nodes,
            cells: outputs - clauses_of_cells(cells),
            outputs,
        })
    }

    /// The number of the first clause of node `v`.
    pub fn node(&self, v: u32) -> u32
        requires { v < length self.now.nodes }
        ensures { result ≡ slice_index self.now.nodes v }
    {
        self.nodes[v as usize]
    }

    /// The number of the first clause of the cells.
    pub fn cells(&self) -> u32
        ensures { result ≡ self.now.cells }
    {
        self.cells
    }

    /// The number of the first clause of the outputs.
    pub fn outputs(&self) -> u32
        ensures { result ≡ self.now.outputs }
    {
        self.outputs
    }
}

// The number of the first clause of each node.
fn first_of_nodes(alloc: Global, net: &Net) -> Result<Vec<u32>, AllocError>
    requires { first_of_node net.now (length net.now.nodes) < 2 ^ 32 }
    ensures { IfOk result (λ firsts. firsts.items ≡ list_of (length net.now.nodes) (first_of_node net.now)) }
{
    let mut firsts = Vec::with_capacity(alloc, net.nodes() as usize)?;
    let mut next = FIRST_OF_NODES;
    for v in 0..net.nodes() {
        firsts.push(next)?;
        next += clauses_of_node(net, v);
    }
    Ok(firsts)
}

// How many clauses node `v` has: one for each mark that asks something and one for each row, and then one
// for the node and one for each row.
fn clauses_of_node(net: &Net, v: u32) -> u32
    requires net { IsNet net.now }
    requires node { v < length net.now.nodes }
    requires few { length (node_clauses net.now v) < 2 ^ 32 }
    ensures { result ≡ length (node_clauses net.now v) }
{
    let rows = net.node_rows(v);
    let mut count = 1;
    for row in rows {
        count += asked(row.marks()) + 2;
    }
    count
}

/// How many marks ask something of their signals.
pub fn asked(marks: &[Mark]) -> u32
    requires { length marks.now < 2 ^ 32 }
    ensures { result ≡ count_by is_asked marks.now }
{
    marks.iter().filter(|mark| **mark != Mark::Any).count() as u32
}

// How many clauses the cells have: those of the cone one for each bit of their tables.
fn clauses_of_cells(cells: &Cells) -> u32
    ensures { (net : Network) → result
        ≡ length (joined (length cells.now.cells) (cell_clauses net cells.now)) }
{
    count_flags(cells.cone()) as u32 * table_bits(cells.geometry())
}

// How many flags are true.
fn count_flags(flags: &[bool]) -> usize
    ensures count { result ≡ count_by (λ b. b) flags.now }
    ensures few { result ≤ length flags.now }
{
    flags.iter().filter(|flag| **flag).count()
}

// How many bits a cell's table has: one for each list of bits at its pins.
fn table_bits(g: Geometry) -> u32
    ensures bits { result ≡ table_bits g }
    ensures few { result ≤ 64 }
{
    1 << g.pins()
}
