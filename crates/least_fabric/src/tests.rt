use crate::least_fabric;
use netlist::read_specification;
use std::test::Fail;

/// A full adder. The cells of x and g stand in column 0, those of s and h in column 1, and that of cout
/// in column 2.
const ADDER: &[u8] = b"\
.inputs a b cin
.outputs s cout
.names a b x
10 1
01 1
.names x cin s
10 1
01 1
.names a b g
11 1
.names x cin h
11 1
.names g h cout
1- 1
-1 1
.end
";

/// An output that is one, whatever happens.
const ONE: &[u8] = b".outputs y\n.names y\n1\n.end\n";

#[test]
fn an_adder_of_one_bit_needs_this(rt: HostRuntime) -> Result<(), Fail> {
    let net = read_specification(rt.alloc(), ADDER)?;
    let g = least_fabric(rt.alloc(), &net)?;
    assert!(rt; (g.c(), g.r(), g.t(), g.i(), g.o()) == (3, 2, 3, 3, 2));
    Ok(())
}

#[test]
fn each_part_is_there_at_least_once(rt: HostRuntime) -> Result<(), Fail> {
    let net = read_specification(rt.alloc(), ONE)?;
    let g = least_fabric(rt.alloc(), &net)?;
    assert!(rt; (g.c(), g.r(), g.t(), g.i(), g.o()) == (1, 1, 1, 1, 1));
    Ok(())
}
