ghost use Rattle.std.specs.Prelude.{◌≡◌, ◌<◌, ◌≤◌, length, slice_get, Some};
ghost use Rattle.net_defs.specs.Networks.{node_at, signals};
ghost use Rattle.net_defs.specs.Nets.{IsNet, row_count, output_names};
ghost use Rattle.net_defs.specs.Orders.{IsOrder};
ghost use Rattle.net_defs.specs.Evaluation.{SpecOut, output_signals};

use crate::eval::{output_bits, put_inputs, sweep};
use crate::network::Network;
use crate::scratch::Scratch;
use blif_read::Row;
use pch_base::{Bits, Name};
use std::marker::Model;

/// An acyclic network within the limits: the names of its inputs, its nodes in the order of the file
/// and its outputs. Contracts see it as the record of these.
///
/// Signals are numbered from 0, the inputs first and then the nodes.
#[derive(Debug, Drop)]
pub struct Net {
    network: Network,
    /// All nodes, each once and after those among its fan-ins.
    order: Vec<u32>,
    /// How many rows all nodes have together.
    rows: u32,
}

impl Model for Net {
    ghost use Rattle.net_defs.specs.Networks.{Network};
    ghost use Rattle.netlist.specs.Orders.{IsKept};

    ghost Value = { Network };

    ghost view = { λ n. n.network };

    ghost invariant = { λ n. IsKept n.network n.order.items n.rows };
}

impl Net {
    /// The net of this network, whose nodes are evaluated in this order.
    pub(crate) fn new(network: Network, order: Vec<u32>) -> Net
        requires net { IsNet network }
        requires order { IsOrder network order.items }
        ensures { result ≡ network }
    {
        let rows = network.row_count();
        Net {
            network,
            order,
            rows,
        }
    }

    /// The network itself.
    pub(crate) fn network(&self) -> &Network
        ensures network { result.now ≡ self.now }
        ensures net { IsNet self.now }
    {
        &self.network
    }

    /// All nodes in an order in which they can be evaluated: each once, and after those among its
    /// fan-ins.
    pub fn order(&self) -> &[u32]
        ensures order { IsOrder self.now result.now }
        ensures net { IsNet self.now }
    {
        &self.order
    }

    /// The bits of the outputs where the inputs have the bits `x`. Takes no memory.
    pub fn eval(&self, x: Bits, s: &mut Scratch) -> Bits
        requires width { length x ≡ length self.now.inputs }
        requires places { signals self.now ≤ length s.old }
        ensures outputs { SpecOut self.now x result }
        ensures places { length s.new ≡ length s.old }
    {
        put_inputs(x, s);
        sweep(&self.network, &self.order, s);
        output_bits(&self.network, s)
    }

    /// How many inputs there are.
    pub fn inputs(&self) -> u32
        ensures count { result ≡ length self.now.inputs }
        ensures net { IsNet self.now }
    {
        self.network.inputs().len() as u32
    }

    /// How many outputs there are.
    pub fn outputs(&self) -> u32
        ensures count { result ≡ length self.now.outputs }
        ensures net { IsNet self.now }
    {
        self.network.outputs().len() as u32
    }

    /// How many nodes there are.
    pub fn nodes(&self) -> u32
        ensures count { result ≡ length self.now.nodes }
        ensures net { IsNet self.now }
    {
        self.network.nodes().len() as u32
    }

    /// How many rows all nodes have together.
    pub fn rows(&self) -> u32
        ensures count { result ≡ row_count self.now }
        ensures net { IsNet self.now }
    {
        self.rows
    }

    /// The name of input `i`.
    pub fn input_name(&self, i: u32) -> &Name
        requires { i < length self.now.inputs }
        ensures { slice_get self.now.inputs i ≡ Some result.now }
    {
        let inputs = self.network.inputs();
        &inputs[i as usize]
    }

    /// The name of output `i`.
    pub fn output_name(&self, i: u32) -> &Name
        requires { i < length self.now.outputs }
        ensures { slice_get (output_names self.now) i ≡ Some result.now }
    {
        let outputs = self.network.outputs();
        let output = &outputs[i as usize];
        &output.name
    }

    /// The signal of output `o`.
    pub fn output_signal(&self, o: u32) -> u32
        requires { o < length self.now.outputs }
        ensures { slice_get (output_signals self.now) o ≡ Some result }
    {
        let outputs = self.network.outputs();
        let output = &outputs[o as usize];
        output.signal
    }

    /// The fan-in signals of node `v`.
    pub fn fan_ins(&self, v: u32) -> &[u32]
        requires { v < length self.now.nodes }
        ensures { result.now ≡ (node_at self.now v).fan_ins }
    {
        self.network.node(v).fan_ins()
    }

    /// The bit of node `v` where some row hits its fan-ins.
    pub fn on(&self, v: u32) -> bool
        requires { v < length self.now.nodes }
        ensures { result ≡ (node_at self.now v).on }
    {
        self.network.node(v).on()
    }

    /// The rows of node `v`.
    pub fn node_rows(&self, v: u32) -> &[Row]
        requires { v < length self.now.nodes }
        ensures { result.now ≡ (node_at self.now v).rows }
    {
        self.network.node(v).rows()
    }
}
