//! From a net to its mapped cells.

ghost use Rattle.std.specs.Prelude.{◌≡◌, ◌↔◌, ◌<◌, ◌≤◌, ℕ, List, length, map, IfOk};
ghost use Rattle.fabric_defs.specs.Bits.{IsBits};
ghost use Rattle.fabric_defs.specs.Geometries.{GeometryValue, pin_count};
ghost use Rattle.net_defs.specs.Evaluation.{SpecOut, output_signals};
ghost use Rattle.map_defs.specs.Mapped.{AreMapped, mapped_cell};
ghost use Rattle.map_defs.specs.Outputs.{LutOut};
ghost use Rattle.map_defs.specs.Reference.{RefMap};
ghost use Rattle.lut_map.specs.Parts.{source_by};

use crate::luts::Luts;
use crate::parts::parts_of;
use crate::placing::{placed_cells, signal_source};
use extract::Source;
use netlist::Net;
use pch_base::NoMemory;
use std::alloc::Global;

/// The sources of the outputs, where the nodes end at these numbers.
fn output_sources(alloc: Global, net: &Net, ends: &[u32]) -> Result<Vec<Source>, NoMemory>
    requires { length ends.now ≡ length net.now.nodes }
    ensures { IfOk result (λ sources. sources.items
        ≡ map (source_by (length net.now.inputs) ends.now) (output_signals net.now)) }
{
    let inputs = net.inputs();
    let mut sources = Vec::with_capacity(alloc, net.outputs() as usize)?;
    for o in 0..net.outputs() {
        sources.push(signal_source(inputs, ends, net.output_signal(o)))?;
    }
    Ok(sources)
}

/// The reference mapping of a net. Its outputs are those of the net, whatever the bits of the inputs,
/// and its cells have no more pins than those of any fabric.
pub fn map(alloc: Global, net: &Net) -> Result<Luts, NoMemory>
    ensures reference { IfOk result (RefMap net.now) }
    ensures outputs { IfOk result (λ l. (x y : List ℕ) → IsBits (length net.now.inputs) x
        → (LutOut l x y ↔ SpecOut net.now x y)) }
    ensures mapped { IfOk result AreMapped }
    ensures narrow { IfOk result (λ l. (g : GeometryValue) (k : ℕ) → k < length l.cells
        → length (mapped_cell l k).pins ≤ pin_count g) }
{
    let parts = parts_of(alloc, net)?;
    let cells = placed_cells(alloc, net, &parts)?;
    let outputs = output_sources(alloc, net, &parts.ends)?;
    Luts::from_cells(alloc, net.inputs(), cells.into_cells(), outputs)
}
