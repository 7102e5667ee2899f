ghost use Rattle.std.specs.Prelude.{◌≡◌, ◌≤◌, length};
ghost use Rattle.net_defs.specs.Networks.{signals};

use crate::{Net, Scratch, read_specification, same, same_interface};
use pch_base::Bits;
use std::alloc::Global;
use std::process::Abort;
use std::test::Fail;
use std::thread;

/// An off-set cover, a constant 0, a constant 1 and an input, as outputs.
const FOUR_OUTPUTS: &[u8] =
    b".inputs a b\n.outputs y z k a\n.names a b y\n11 0\n.names k\n1\n.names z\n.end\n";

/// The same in another order.
const TURNED: &[u8] =
    b".inputs b a\n.outputs a k y z\n.names z\n.names k\n1\n.names a b y\n11 0\n.end\n";

fn net_of(alloc: Global, text: &[u8]) -> Result<Net, Fail> {
    Ok(read_specification(alloc, text).ok().ok_or("no net")?)
}

/// The outputs at `x` as a word.
fn outputs_at(rt: &impl Abort, net: &Net, s: &mut Scratch, x: Bits) -> u64
    requires { signals net.now ≤ length s.old }
    ensures { length s.new ≡ length s.old }
{
    assert_eq!(rt; x.len(), net.inputs());
    net.eval(x, s).word()
}

#[test]
fn a_net_is_read_and_evaluated(rt: HostRuntime) -> Result<(), Fail> {
    let alloc = rt.alloc();
    let net = net_of(alloc, FOUR_OUTPUTS)?;
    assert_eq!(rt; net.rows(), 2);
    assert_eq!(rt; net.order().len(), 3);
    let mut s = Scratch::new(alloc, &net)?;
    assert_eq!(rt; outputs_at(&rt, &net, &mut s, Bits::new(0b00, 2)), 0b0101);
    assert_eq!(rt; outputs_at(&rt, &net, &mut s, Bits::new(0b01, 2)), 0b1101);
    assert_eq!(rt; outputs_at(&rt, &net, &mut s, Bits::new(0b10, 2)), 0b0101);
    assert_eq!(rt; outputs_at(&rt, &net, &mut s, Bits::new(0b11, 2)), 0b1100);
    Ok(())
}

#[test]
fn a_net_is_put_into_the_order_of_another(rt: HostRuntime) -> Result<(), Fail> {
    let alloc = rt.alloc();
    let spec = net_of(alloc, FOUR_OUTPUTS)?;
    let design = net_of(alloc, TURNED)?;
    let p = same_interface(alloc, &spec, &design)?;
    let net = design.aligned(alloc, &p)?;
    let mut s = Scratch::new(alloc, &net)?;
    assert_eq!(rt; outputs_at(&rt, &net, &mut s, Bits::new(0b01, 2)), 0b1101);
    assert!(rt; same(&net, &net));
    assert!(rt; !same(&net, &design));
    Ok(())
}

#[test]
fn nets_are_shared_by_threads(rt: HostRuntime) -> Result<(), Fail> {
    let net = net_of(rt.alloc(), FOUR_OUTPUTS)?;
    let (nodes, rows) = thread::join(&rt, || net.nodes(), || net.rows());
    assert_eq!(rt; nodes, 3);
    assert_eq!(rt; rows, 2);
    let there = thread::spawn(&rt, move || net.outputs())?;
    assert_eq!(rt; there.join(&rt), 4);
    Ok(())
}
