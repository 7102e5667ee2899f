//! The cells of one node by itself: there an input is a fan-in of the node, and cells are counted from
//! its first one.

ghost use Rattle.std.specs.Prelude.{◌≡◌, ◌+◌, ◌-◌, ◌<◌, ◌≤◌, ◌++◌, [], ◌∷◌, length, All, OnOk};
ghost use Rattle.blif_defs.specs.declared.mark.TheConstants.{MAX_PORTS};
ghost use Rattle.map_defs.specs.NodeCells.{row_terms, rows_cells, rows_terms, node_cells};
ghost use Rattle.lut_map.specs.Steps.{mark_terms, direct, joined_of};
ghost use Rattle.fabric_defs.specs.Numbered.{list_of};
ghost use Rattle.fabric_defs.specs.declared.limits.TheConstants.{MAX_PINS};
ghost use Rattle.cell_defs.specs.declared.source.Source.TheVariants.{Pad};
ghost use Rattle.net_defs.specs.Networks.{node_at};
ghost use Rattle.net_defs.specs.Nets.{IsNet};
ghost use Rattle.lut_map.specs.declared.made.TheConstants.{MAX_CELLS};

use crate::gates::push_gates;
use crate::made::Made;
use crate::tables::node_table;
use blif_read::{Mark, Row};
use extract::Source;
use map_defs::{GROUP, Gate, Term};
use netlist::Net;
use pch_base::NoMemory;
use std::alloc::Global;

/// Room that is used again for each node.
#[derive(Debug, Drop)]
pub(crate) struct Room {
    /// The terms of the gate that is being made.
    pub(crate) terms: Vec<Term>,
    /// The terms that a round leaves.
    pub(crate) left: Vec<Term>,
    /// The last cell of each row.
    pub(crate) ends: Vec<Term>,
    /// The pins of a node's one cell.
    pub(crate) pins: Vec<Source>,
}

impl Room {
    /// No room yet.
    pub(crate) fn new(alloc: Global) -> Room {
        Room {
            terms: Vec::new(alloc),
            left: Vec::new(alloc),
            ends: Vec::new(alloc),
            pins: Vec::new(alloc),
        }
    }
}

/// Appends what a mark asks of the fan-in with this number.
fn push_term(terms: &mut Vec<Term>, pin: u32, mark: Mark) -> Result<(), NoMemory>
    ensures terms { OnOk result (terms.new.items ≡ terms.old.items ++ mark_terms pin mark) }
    ensures few { OnOk result (length terms.new.items ≤ length terms.old.items + 1) }
{
    let positive = match mark {
        Mark::Zero => false,
        Mark::One => true,
        Mark::Any => return Ok(()),
    };
    terms.push(Term {
        source: Source::Pad(pin),
        positive,
    })?;
    Ok(())
}

/// Makes `terms` what a row asks of the fan-ins.
fn put_terms(terms: &mut Vec<Term>, row: &[Mark]) -> Result<(), NoMemory>
    requires { length row.now ≤ MAX_PORTS }
    ensures terms { OnOk result (terms.new.items ≡ row_terms 0 row.now) }
    ensures few { OnOk result (length terms.new.items ≤ MAX_PORTS) }
{
    terms.clear();
    for (pin, mark) in row.iter().enumerate() {
        push_term(terms, pin as u32, *mark)?;
    }
    Ok(())
}

/// The cells of these rows in order, and in `room.ends` the last cell of each. Cells are counted from
/// the one with the number `first`.
fn push_rows(cells: &mut Made, first: u32, rows: &[Row], room: &mut Room) -> Result<(), NoMemory>
    requires first { first ≤ length cells.old }
    requires short { All (λ row. length row ≤ MAX_PORTS) rows.now }
    ensures cells { OnOk result
        (cells.new ≡ cells.old ++ rows_cells (length cells.old - first) rows.now) }
    ensures ends { OnOk result
        (room.new.ends.items ≡ rows_terms (length cells.old - first) rows.now) }
    ensures few { OnOk result (length room.new.ends.items ≤ MAX_CELLS) }
{
    room.ends.clear();
    for row in rows {
        put_terms(&mut room.terms, row.marks())?;
        push_gates(
            cells,
            Gate::Conjunction,
            false,
            first,
            &mut room.terms,
            &mut room.left,
        )?;
        let last = cells.len() - first - 1;
        room.ends.push(Term {
            source: Source::Cell(last),
            positive: true,
        })?;
    }
    Ok(())
}

/// The cells of a node with many fan-ins: those of its rows, and those that join the rows.
fn push_joined(cells: &mut Made, rows: &[Row], on: bool, room: &mut Room) -> Result<(), NoMemory>
    requires { All (λ row. length row ≤ MAX_PORTS) rows.now }
    ensures { OnOk result (cells.new ≡ cells.old ++ joined_of on rows.now) }
{
    let first = cells.len();
    push_rows(cells, first, rows, room)?;
    push_gates(
        cells,
        Gate::Disjunction,
        !on,
        first,
        &mut room.ends,
        &mut room.left,
    )?;
    Ok(())
}

/// Makes `pins` so many fan-ins in order.
fn put_pads(pins: &mut Vec<Source>, count: u32) -> Result<(), NoMemory>
    ensures { OnOk result (pins.new.items ≡ list_of count Pad) }
{
    pins.clear();
    for pin in 0..count {
        pins.push(Source::Pad(pin))?;
    }
    Ok(())
}

/// The one cell of a node with few fan-ins.
fn push_direct(
    cells: &mut Made,
    pins: u32,
    rows: &[Row],
    on: bool,
    room: &mut Room,
) -> Result<(), NoMemory>
    requires few { pins ≤ MAX_PINS }
    requires rows { All (λ row. length row ≡ pins) rows.now }
    ensures { OnOk result (cells.new ≡ cells.old ++ direct pins on rows.now ∷ []) }
{
    put_pads(&mut room.pins, pins)?;
    cells.push(&room.pins, node_table(rows, on, pins))
}

/// The cells of node `v`.
#[tactic(auto, using(crate::proofs::NodeSteps::node_many, crate::proofs::NodeSteps::node_few))]
pub(crate) fn push_node(
    cells: &mut Made,
    net: &Net,
    v: u32,
    room: &mut Room,
) -> Result<(), NoMemory>
    requires net { IsNet net.now }
    requires within { v < length net.now.nodes }
    ensures { OnOk result (cells.new ≡ cells.old ++ node_cells (node_at net.now v)) }
{
    let pins = net.fan_ins(v).len() as u32;
    if pins > GROUP {
        push_joined(cells, net.node_rows(v), net.on(v), room)
    } else {
        push_direct(cells, pins, net.node_rows(v), net.on(v), room)
    }
}
