ghost use Rattle.std.specs.Prelude.{◌≡◌, ℕ, ◌+◌, ◌≤◌, List, length, map, All, IfOk};
ghost use Rattle.blif_read.specs.declared.cover.Cover.{Cover};
ghost use Rattle.blif_defs.specs.Values.{BlifValue, IsBlif};
ghost use Rattle.blif_defs.specs.declared.mark.TheConstants.{MAX_PORTS, MAX_SIGNALS};
ghost use Rattle.blif_read.specs.Views.{blif_of, cover_of};
ghost use Rattle.text_defs.specs.Memory.{OrMemory};
ghost use Rattle.net_defs.specs.NetOf.{signal_names, NetOf};
ghost use Rattle.netlist.specs.Index.{IsIndexOf};
ghost use Rattle.netlist.specs.Resolving.{FanInsOf, NodeOf, NodesOf, OutputsOf, NetworkOf};
ghost use Rattle.net_defs.specs.declared.faults.NetError.TheVariants.{NoMemory};

use crate::copies::{copies_of_names, copies_of_rows, copy_of_name};
use crate::index::NameIndex;
use crate::net::Net;
use crate::network::{NetNode, NetOutput, Network};
use crate::order::order_of;
use blif_read::{Blif, Cover};
use net_defs::NetError;
use pch_base::Name;
use std::alloc::{AllocError, Global};

/// The places of these names.
pub(crate) fn index_names<'a>(alloc: Global, names: &'a [Name]) -> Result<NameIndex<'a>, AllocError>
    requires { length names.now ≤ MAX_SIGNALS }
    ensures { IfOk result (λ index. IsIndexOf index names.now) }
{
    let mut index = NameIndex::new(alloc);
    for (i, name) in names.iter().enumerate() {
        index.insert(name.bytes(), i as u32)?;
    }
    Ok(index)
}

/// The signals with the names of the inputs and of the covers' outputs.
fn index_signals<'a>(alloc: Global, b: &'a Blif) -> Result<NameIndex<'a>, AllocError>
    requires { length (signal_names (blif_of b.now)) ≤ MAX_SIGNALS }
    ensures { IfOk result (λ index. IsIndexOf index (signal_names (blif_of b.now))) }
{
    let inputs = b.inputs.as_slice();
    let covers = b.covers.as_slice();
    let mut index = index_names(alloc, inputs)?;
    for (v, cover) in covers.iter().enumerate() {
        index.insert(cover.out.bytes(), (inputs.len() + v) as u32)?;
    }
    Ok(index)
}

/// The signals with the names of the inputs of cover `node`.
fn fan_ins_of(
    alloc: Global,
    index: &NameIndex<'_>,
    ins: &[Name],
    node: u32,
) -> Result<Vec<u32>, NetError>
    requires { length ins.now ≤ MAX_PORTS }
    ensures { (b : BlifValue) → IsIndexOf index.now (signal_names b)
        → OrMemory NoMemory (FanInsOf b ins.now node) result }
{
    let mut signals = Vec::with_capacity(alloc, ins.len())?;
    for (pin, name) in ins.iter().enumerate() {
        let Some(signal) = index.find(name.bytes()) else {
            return Err(NetError::UndrivenPin {
                node,
                pin: pin as u32,
            });
        };
        signals.push(signal)?;
    }
    Ok(signals)
}

/// The node of cover `node`.
fn node_of(
    alloc: Global,
    index: &NameIndex<'_>,
    cover: &Cover,
    node: u32,
) -> Result<NetNode, NetError>
    requires { length cover.now.ins ≤ MAX_PORTS }
    ensures { (b : BlifValue) → IsIndexOf index.now (signal_names b)
        → OrMemory NoMemory (NodeOf b (cover_of cover.now) node) result }
{
    let fan_ins = fan_ins_of(alloc, index, cover.ins.as_slice(), node)?;
    let rows = copies_of_rows(alloc, cover.rows.as_slice())?;
    Ok(NetNode {
        fan_ins,
        on: cover.on,
        rows,
    })
}

/// The nodes of the covers.
fn nodes_of(
    alloc: Global,
    index: &NameIndex<'_>,
    covers: &[Cover],
) -> Result<Vec<NetNode>, NetError>
    requires few { length covers.now ≤ MAX_SIGNALS }
    requires short { All (λ (cover : Cover). length cover.ins ≤ MAX_PORTS) covers.now }
    ensures { (b : BlifValue) → IsIndexOf index.now (signal_names b)
        → b.covers ≡ map cover_of covers.now → OrMemory NoMemory (NodesOf b) result }
{
    let mut nodes = Vec::with_capacity(alloc, covers.len())?;
    for (v, cover) in covers.iter().enumerate() {
        nodes.push(node_of(alloc, index, cover, v as u32)?)?;
    }
    Ok(nodes)
}

/// The outputs with these names.
fn outputs_of(
    alloc: Global,
    index: &NameIndex<'_>,
    names: &[Name],
) -> Result<Vec<NetOutput>, NetError>
    requires { length names.now ≤ MAX_PORTS }
    ensures { (b : BlifValue) → IsIndexOf index.now (signal_names b) → b.outputs ≡ names.now
        → OrMemory NoMemory (OutputsOf b) result }
{
    let mut outputs = Vec::with_capacity(alloc, names.len())?;
    for (o, name) in names.iter().enumerate() {
        let Some(signal) = index.find(name.bytes()) else {
            return Err(NetError::UndrivenOutput { place: o as u32 });
        };
        outputs.push(NetOutput {
            name: copy_of_name(alloc, name)?,
            signal,
        })?;
    }
    Ok(outputs)
}

/// The network of the design, with signals in place of names.
fn network_of(alloc: Global, index: &NameIndex<'_>, b: &Blif) -> Result<Network, NetError>
    requires { IsBlif (blif_of b.now) }
    ensures { IsIndexOf index.now (signal_names (blif_of b.now))
        → OrMemory NoMemory (NetworkOf (blif_of b.now)) result }
{
    let nodes = nodes_of(alloc, index, b.covers.as_slice())?;
    let outputs = outputs_of(alloc, index, b.outputs.as_slice())?;
    let inputs = copies_of_names(alloc, b.inputs.as_slice())?;
    Ok(Network {
        inputs,
        nodes,
        outputs,
    })
}

/// The net of a design within the limits, as `read_blif` gives it, or the design's first fault.
pub fn build(alloc: Global, b: &Blif) -> Result<Net, NetError>
    requires { IsBlif (blif_of b.now) }
    ensures { OrMemory NoMemory (NetOf (blif_of b.now)) result }
{
    let index = index_signals(alloc, b)?;
    let network = network_of(alloc, &index, b)?;
    let order = order_of(alloc, &network)?;
    Ok(Net::new(network, order))
}
