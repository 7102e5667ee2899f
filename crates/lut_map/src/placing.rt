//! The cells of nodes among those of all nodes: a pin that is a fan-in of its node listens to the
//! source of that signal, and one that is a cell of the node to that cell by its number among all.

ghost use Rattle.std.specs.Prelude.{◌≡◌, ℕ, ◌+◌, ◌-◌, ◌<◌, ◌≤◌, ◌++◌, [], ◌∷◌, length, map, take, drop, All, OnOk, IfOk};
ghost use Rattle.fabric_defs.specs.declared.limits.TheConstants.{MAX_PINS};
ghost use Rattle.cell_defs.specs.Cells.{IsSourceBelow};
ghost use Rattle.extract.specs.CellLists.{listed_cell};
ghost use Rattle.map_defs.specs.Reference.{source_in, cell_in, cells_before};
ghost use Rattle.lut_map.specs.declared.made.TheConstants.{MAX_CELLS};
ghost use Rattle.lut_map.specs.Marks.{is_marked};
ghost use Rattle.lut_map.specs.Parts.{AreParts, source_by, IsPlaceable};

use crate::made::Made;
use crate::parts::Parts;
use extract::Source;
use netlist::Net;
use pch_base::NoMemory;
use std::alloc::Global;

/// The source of a signal: an input, or the last cell of a node.
pub(crate) fn signal_source(inputs: u32, ends: &[u32], signal: u32) -> Source
    requires { signal < inputs + length ends.now }
    ensures { result ≡ source_by inputs ends.now signal }
{
    if signal < inputs {
        Source::Pad(signal)
    } else {
        Source::Cell(ends[(signal - inputs) as usize].saturating_sub(1))
    }
}

/// A source of the node by itself, among all cells.
fn source_in(inputs: u32, ends: &[u32], fan_ins: &[u32], first: u32, source: Source) -> Source
    requires signals { All (λ s. s < inputs + length ends.now) fan_ins.now }
    requires first { first ≤ MAX_CELLS }
    requires below { IsSourceBelow (length fan_ins.now) MAX_CELLS source }
    ensures { result ≡ source_in (source_by inputs ends.now) fan_ins.now first source }
{
    match source {
        Source::Zero => Source::Zero,
        Source::Pad(j) => signal_source(inputs, ends, fan_ins[j as usize]),
        Source::Cell(i) => Source::Cell(first + i),
    }
}

/// Makes `pins` the sources of the node by itself, among all cells.
fn put_sources(
    pins: &mut Vec<Source>,
    inputs: u32,
    ends: &[u32],
    fan_ins: &[u32],
    first: u32,
    own: &[Source],
) -> Result<(), NoMemory>
    requires signals { All (λ s. s < inputs + length ends.now) fan_ins.now }
    requires first { first ≤ MAX_CELLS }
    requires below { All (IsSourceBelow (length fan_ins.now) MAX_CELLS) own.now }
    ensures { OnOk result (pins.new.items
        ≡ map (source_in (source_by inputs ends.now) fan_ins.now first) own.now) }
{
    pins.clear();
    for source in own {
        pins.push(source_in(inputs, ends, fan_ins, first, *source))?;
    }
    Ok(())
}

/// A cell of the node by itself, among all cells. `pins` is room for the pins of one cell.
fn push_placed(
    cells: &mut Made,
    inputs: u32,
    ends: &[u32],
    fan_ins: &[u32],
    first: u32,
    own: &[Source],
    table: u64,
    pins: &mut Vec<Source>,
) -> Result<(), NoMemory>
    requires signals { All (λ s. s < inputs + length ends.now) fan_ins.now }
    requires first { first ≤ MAX_CELLS }
    requires few { length own.now ≤ MAX_PINS }
    requires below { All (IsSourceBelow (length fan_ins.now) MAX_CELLS) own.now }
    ensures { OnOk result (cells.new ≡ cells.old
        ++ cell_in (source_by inputs ends.now) fan_ins.now first
        (record { pins = own.now; table = table }) ∷ []) }
{
    put_sources(pins, inputs, ends, fan_ins, first, own)?;
    cells.push(pins, table)
}

/// The cells of the node by itself, which are those of `own` up to `end`, among all cells.
pub(crate) fn push_node_placed(
    cells: &mut Made,
    own: &Made,
    inputs: u32,
    ends: &[u32],
    fan_ins: &[u32],
    first: u32,
    end: u32,
    pins: &mut Vec<Source>,
) -> Result<(), NoMemory>
    requires signals { All (λ s. s < inputs + length ends.now) fan_ins.now }
    requires few { length own.now ≤ MAX_CELLS }
    requires first { first ≤ end }
    requires end { end ≤ length own.now }
    requires each { (k : ℕ) → first ≤ k → k < end
        → IsPlaceable (length fan_ins.now) (listed_cell own.now k) }
    ensures { OnOk result (cells.new ≡ cells.old
        ++ map (cell_in (source_by inputs ends.now) fan_ins.now first)
        (take (end - first) (drop first own.now))) }
{
    for k in first..end {
        let cell = own.get(k);
        push_placed(
            cells, inputs, ends, fan_ins, first, cell.pins, cell.table, pins,
        )?;
    }
    Ok(())
}

/// The cells of all needed nodes, among all cells.
pub(crate) fn placed_cells(alloc: Global, net: &Net, parts: &Parts) -> Result<Made, NoMemory>
    requires { AreParts net.now (is_marked parts.now.needed.items) (length net.now.nodes)
        parts.now.cells parts.now.ends.items }
    ensures { IfOk result (λ cells. cells
        ≡ cells_before net.now (is_marked parts.now.needed.items) (length net.now.nodes)) }
{
    let inputs = net.inputs();
    let ends = &parts.ends;
    let count = parts.cells.len();
    let mut cells = Made::with_capacity(alloc, count)?;
    let mut pins = Vec::new(alloc);
    let mut first = 0;
    for v in 0..net.nodes() {
        let end = ends[v as usize];
        push_node_placed(
            &mut cells,
            &parts.cells,
            inputs,
            ends,
            net.fan_ins(v),
            first,
            end,
            &mut pins,
        )?;
        first = end;
    }
    Ok(cells)
}
