//! The cells of all needed nodes, each node by itself, in the order of the file.

ghost use Rattle.std.specs.Prelude.{◌≡◌, ◌<◌, ◌++◌, [], length, if◌then◌else◌, IfOk, OnOk};
ghost use Rattle.net_defs.specs.Networks.{node_at};
ghost use Rattle.net_defs.specs.Nets.{IsNet};
ghost use Rattle.map_defs.specs.Needed.{IsNeeded};
ghost use Rattle.map_defs.specs.NodeCells.{node_cells};
ghost use Rattle.lut_map.specs.Marks.{is_marked};
ghost use Rattle.lut_map.specs.Parts.{AreParts};

use crate::made::Made;
use crate::needed::needed_nodes;
use crate::nodes::{Room, push_node};
use netlist::Net;
use pch_base::NoMemory;
use std::alloc::Global;

/// The cells of the nodes.
#[derive(Debug, Drop)]
pub(crate) struct Parts {
    /// For each node whether it is needed.
    pub(crate) needed: Vec<bool>,
    /// The cells of all needed nodes. An input of such a cell is a fan-in of its node, and cells are
    /// counted from the node's first one.
    pub(crate) cells: Made,
    /// For each node how many cells it and the nodes before it have.
    pub(crate) ends: Vec<u32>,
}

/// The cells of node `v` where it is needed.
fn push_needed(
    cells: &mut Made,
    net: &Net,
    v: u32,
    is_needed: bool,
    room: &mut Room,
) -> Result<(), NoMemory>
    requires net { IsNet net.now }
    requires within { v < length net.now.nodes }
    ensures { OnOk result (cells.new ≡ cells.old
        ++ (if is_needed then node_cells (node_at net.now v) else [])) }
{
    if is_needed {
        push_node(cells, net, v, room)?;
    }
    Ok(())
}

/// The cells of all needed nodes.
pub(crate) fn parts_of(alloc: Global, net: &Net) -> Result<Parts, NoMemory>
    ensures needed { IfOk result (λ p. IsNeeded net.now (is_marked p.needed.items)) }
    ensures parts { IfOk result (λ p.
        AreParts net.now (is_marked p.needed.items) (length net.now.nodes) p.cells p.ends.items) }
{
    let needed = needed_nodes(alloc, net)?;
    let count = net.nodes();
    let mut room = Room::new(alloc);
    let mut cells = Made::with_capacity(alloc, count)?;
    let mut ends = Vec::with_capacity(alloc, count as usize)?;
    for v in 0..count {
        push_needed(&mut cells, net, v, needed[v as usize], &mut room)?;
        ends.push(cells.len())?;
    }
    Ok(Parts {
        needed,
        cells,
        ends,
    })
}
