ghost use Rattle.std.specs.Prelude.{◌≡◌, ℕ, ◌<◌, ◌≤◌, List, length, All, if◌then◌else◌};
ghost use Rattle.std.specs.List.{list_any};
ghost use Rattle.net_defs.specs.Networks.{signals};
ghost use Rattle.net_defs.specs.Evaluation.{allows, hits, node_bit, bits_at, output_signals};
ghost use Rattle.net_defs.specs.Nets.{IsNode, IsNet};
ghost use Rattle.net_defs.specs.Orders.{IsOrder};
ghost use Rattle.netlist.specs.Places.{SameBits, Completes};

use crate::network::{NetNode, Network};
use crate::scratch::Scratch;
use blif_read::{Mark, Row};
use pch_base::Bits;

/// Whether the mark may stand over the bit.
fn is_allowed(mark: Mark, bit: bool) -> bool
    ensures { result ≡ allows mark (if bit then 1 else 0) }
{
    match mark {
        Mark::Zero => !bit,
        Mark::One => bit,
        Mark::Any => true,
    }
}

/// Whether the row hits the bits of the fan-ins.
fn row_hits(row: &[Mark], fan_ins: &[u32], s: &Scratch) -> bool
    requires marks { length row.now ≡ length fan_ins.now }
    requires within { All (λ i. i < length s.now) fan_ins.now }
    ensures { result ≡ hits row.now (bits_at s.now fan_ins.now) }
{
    for (i, mark) in row.iter().enumerate() {
        if !is_allowed(*mark, s.get(fan_ins[i] as usize)) {
            return false;
        }
    }
    true
}

/// Whether some row hits the bits of the fan-ins.
fn some_row_hits(rows: &[Row], fan_ins: &[u32], s: &Scratch) -> bool
    requires marks { All (λ row. length row ≡ length fan_ins.now) rows.now }
    requires within { All (λ i. i < length s.now) fan_ins.now }
    ensures { result ≡ list_any (λ row. hits row (bits_at s.now fan_ins.now)) rows.now }
{
    for row in rows {
        if row_hits(row.marks(), fan_ins, s) {
            return true;
        }
    }
    false
}

impl NetNode {
    /// Whether the bit of the node is 1.
    fn bit(&self, s: &Scratch) -> bool
        requires { IsNode (length s.now) self.now }
        ensures { node_bit self.now (bits_at s.now self.now.fan_ins) ≡ (if result then 1 else 0) }
    {
        some_row_hits(&self.rows, &self.fan_ins, s) == self.on
    }
}

/// Makes the first places the input bits.
pub(crate) fn put_inputs(x: Bits, s: &mut Scratch)
    requires { length x ≤ length s.old }
    ensures places { length s.new ≡ length s.old }
    ensures inputs { SameBits (length x) s.new x }
{
    for i in 0..x.len() {
        s.set(i as usize, x.get(i));
    }
}

/// Gives each node its bit, each one after its fan-ins.
pub(crate) fn sweep(network: &Network, order: &[u32], s: &mut Scratch)
    requires net { IsNet network.now }
    requires order { IsOrder network.now order.now }
    requires places { signals network.now ≤ length s.old }
    ensures places { length s.new ≡ length s.old }
    ensures complete { Completes network.now s.old s.new }
{
    let inputs = network.inputs().len();
    let nodes = network.nodes();
    for v in order {
        let node = &nodes[*v as usize];
        let bit = node.bit(s);
        s.set(inputs + *v as usize, bit);
    }
}

/// The bits of the outputs.
pub(crate) fn output_bits(network: &Network, s: &Scratch) -> Bits
    requires net { IsNet network.now }
    requires places { signals network.now ≤ length s.now }
    ensures { result ≡ bits_at s.now (output_signals network.now) }
{
    let outputs = network.outputs();
    let mut bits = Bits::new(0, outputs.len() as u32);
    for (o, output) in outputs.iter().enumerate() {
        bits = bits.with(o as u32, s.get(output.signal as usize));
    }
    bits
}
