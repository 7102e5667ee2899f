ghost use Rattle.std.specs.Prelude.{◌≡◌, ◌<◌, length, map, slice_index, IfOk};
ghost use Rattle.net_defs.specs.Networks.{Node, node_at};
ghost use Rattle.net_defs.specs.Nets.{IsNet, row_count};
ghost use Rattle.netlist.specs.Sortings.{HasShortNodes};

use blif_read::Row;
use pch_base::Name;
use std::alloc::{AllocError, Global};
use std::marker::Model;

/// A node: its fan-in signals, and its rows with the value of the output where one of them hits.
#[derive(Debug, Drop)]
pub(crate) struct NetNode {
    pub(crate) fan_ins: Vec<u32>,
    pub(crate) on: bool,
    pub(crate) rows: Vec<Row>,
}

impl Model for NetNode {
    ghost use Rattle.net_defs.specs.Networks.{Node};

    ghost Value = { Node };

    ghost view = { λ n. record { fan_ins = n.fan_ins.items; on = n.on; rows = n.rows.items } };
}

impl NetNode {
    /// The fan-in signals.
    pub(crate) fn fan_ins(&self) -> &[u32]
        ensures { result.now ≡ self.now.fan_ins }
    {
        &self.fan_ins
    }

    /// The bit of the node where some row hits.
    pub(crate) fn on(&self) -> bool
        ensures { result ≡ self.now.on }
    {
        self.on
    }

    /// The rows.
    pub(crate) fn rows(&self) -> &[Row]
        ensures { result.now ≡ self.now.rows }
    {
        &self.rows
    }
}

/// An output: its name and its signal.
#[derive(Debug, Drop)]
pub(crate) struct NetOutput {
    pub(crate) name: Name,
    pub(crate) signal: u32,
}

impl Model for NetOutput {
    ghost use Rattle.net_defs.specs.Networks.{Output};

    ghost Value = { Output };

    ghost view = { λ o. record { name = o.name; signal = o.signal } };
}

/// The network of a network, as contracts see it.
#[derive(Debug, Drop)]
pub(crate) struct Network {
    pub(crate) inputs: Vec<Name>,
    pub(crate) nodes: Vec<NetNode>,
    pub(crate) outputs: Vec<NetOutput>,
}

impl Model for Network {
    ghost use Rattle.net_defs.specs.Networks.{Network};

    ghost Value = { Network };

    ghost view = { λ p. record {
      inputs = p.inputs.items;
      nodes = p.nodes.items;
      outputs = p.outputs.items;
    } };
}

impl Network {
    /// The names of the inputs.
    pub(crate) fn inputs(&self) -> &[Name]
        ensures { result.now ≡ self.now.inputs }
    {
        &self.inputs
    }

    /// The nodes in the order of the file.
    pub(crate) fn nodes(&self) -> &[NetNode]
        ensures { result.now ≡ self.now.nodes }
    {
        &self.nodes
    }

    /// The outputs.
    pub(crate) fn outputs(&self) -> &[NetOutput]
        ensures { result.now ≡ self.now.outputs }
    {
        &self.outputs
    }

    /// Node `v`.
    pub(crate) fn node(&self, v: u32) -> &NetNode
        requires { v < length self.now.nodes }
        ensures { result.now ≡ node_at self.now v }
    {
        let nodes = self.nodes();
        &nodes[v as usize]
    }

    /// How many rows all nodes have together.
    pub(crate) fn row_count(&self) -> u32
        requires { IsNet self.now }
        ensures { result ≡ row_count self.now }
    {
        let mut count = 0;
        for node in self.nodes() {
            count += node.rows().len() as u32;
        }
        count
    }

    /// How many pins each node has.
    pub(crate) fn pin_counts(&self, alloc: Global) -> Result<Vec<u32>, AllocError>
        requires { HasShortNodes self.now }
        ensures { IfOk result (λ v. v.items ≡ map
            (λ (node : Node). length node.fan_ins) self.now.nodes) }
    {
        let nodes = self.nodes();
        let mut counts = Vec::with_capacity(alloc, nodes.len())?;
        for node in nodes {
            counts.push(node.fan_ins.len() as u32)?;
        }
        Ok(counts)
    }

    /// Fan-in `pin` of node `v`.
    pub(crate) fn fan_in(&self, v: u32, pin: u32) -> u32
        requires node { v < length self.now.nodes }
        requires pin { pin < length (node_at self.now v).fan_ins }
        ensures { result ≡ slice_index (node_at self.now v).fan_ins pin }
    {
        self.node(v).fan_ins()[pin as usize]
    }
}
