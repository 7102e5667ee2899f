ghost use Rattle.std.specs.Prelude.{◌≡◌, ◌≤◌, length};
ghost use Rattle.net_defs.specs.Networks.{signals};

use crate::inputs::Inputs;
use eval_lanes::{LaneWires, count_ones, eval64};
use fabric::{Config, Wires, eval};
use netlist::{Net, Scratch};

/// The ones of all outputs of the network, for so many inputs.
pub(crate) fn ones_of_net(net: &Net, times: u64, s: &mut Scratch) -> u64
    requires { signals net.now ≤ length s.old }
{
    let width = net.inputs();
    let mut inputs = Inputs::new();
    let mut ones = 0u64;
    for _ in 0..times {
        let y = net.eval(inputs.next(width), s);
        ones = ones.wrapping_add(u64::from(y.word().count_ones()));
    }
    ones
}

/// The ones of all output pads of the configuration, for so many inputs.
pub(crate) fn ones_of_config(config: &Config, times: u64, w: &mut Wires) -> u64
    requires { w.old.geometry ≡ config.now.geometry }
{
    let width = config.geometry().i();
    let mut inputs = Inputs::new();
    let mut ones = 0u64;
    for _ in 0..times {
        let y = eval(config, inputs.next(width), w);
        ones = ones.wrapping_add(u64::from(y.word().count_ones()));
    }
    ones
}

/// The ones of these words.
fn ones_in(words: &[u64]) -> u64 {
    let mut ones = 0u64;
    for word in words {
        ones = ones.wrapping_add(u64::from(word.count_ones()));
    }
    ones
}

/// The ones of all output pads of the configuration, for so many times sixty-four inputs; `words`
/// has room for the words of the input pads, and `out` for those of the output pads.
pub(crate) fn ones_of_lanes(
    config: &Config,
    times: u64,
    words: &mut [u64],
    out: &mut [u64],
    w: &mut LaneWires,
) -> u64
    requires words { length words.old ≡ config.now.geometry.input_pads }
    requires out { length out.old ≡ config.now.geometry.output_pads }
    requires wires { w.old ≡ config.now.geometry }
{
    let mut inputs = Inputs::new();
    let mut ones = 0u64;
    for _ in 0..times {
        inputs.fill(words);
        eval64(config, words, out, w);
        ones = ones.wrapping_add(ones_in(out));
    }
    ones
}

/// The ones of all output pads of the configuration, for the values from 0 on, of which there are so
/// many, as its inputs.
pub(crate) fn ones_of_values(config: &Config, count: u32, w: &mut LaneWires) -> u64
    requires { w.old ≡ config.now.geometry }
{
    let g = config.geometry();
    let counts = count_ones(config, g.i(), 0, count, w);
    let mut ones = 0u64;
    for o in 0..g.o() {
        ones = ones.wrapping_add(counts.get(o));
    }
    ones
}
