ghost use Rattle.std.specs.Prelude.{◌≡◌, ◌↔◌, IsTrue, Decides};

use crate::net::Net;
use crate::network::{NetNode, NetOutput};
use blif_read::Row;
use pch_base::Name;

/// Equality of what contracts see.
trait SameAs {
    fn is_equal(&self, other: &Self) -> bool
        ensures { Decides result (self.now ≡ other.now) };
}

impl SameAs for Name {
    fn is_equal(&self, other: &Name) -> bool {
        self.bytes() == other.bytes()
    }
}

impl SameAs for Row {
    fn is_equal(&self, other: &Row) -> bool {
        self.marks() == other.marks()
    }
}

impl SameAs for NetNode {
    fn is_equal(&self, other: &NetNode) -> bool {
        self.fan_ins() == other.fan_ins()
            && self.on() == other.on()
            && are_equal(self.rows(), other.rows())
    }
}

impl SameAs for NetOutput {
    fn is_equal(&self, other: &NetOutput) -> bool {
        self.name.is_equal(&other.name) && self.signal == other.signal
    }
}

/// Whether the lists are equal place by place.
fn are_equal<T: SameAs>(a: &[T], b: &[T]) -> bool
    ensures { Decides result (a.now ≡ b.now) }
{
    if a.len() != b.len() {
        return false;
    }
    for (i, x) in a.iter().enumerate() {
        if !x.is_equal(&b[i]) {
            return false;
        }
    }
    true
}

/// Whether the nets are equal in all that a net keeps. Takes no memory.
pub fn same(a: &Net, b: &Net) -> bool
    ensures { IsTrue result ↔ (a.now ≡ b.now) }
{
    are_equal(a.network().inputs(), b.network().inputs())
        && are_equal(a.network().nodes(), b.network().nodes())
        && are_equal(a.network().outputs(), b.network().outputs())
}
