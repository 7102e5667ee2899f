use crate::{Bits, Clause, Lit, read_number};
use std::test::Fail;

#[test]
fn numbers_are_read(rt: HostRuntime) {
    assert_eq!(rt; read_number(b"0", 9), Some(0));
    assert_eq!(rt; read_number(b"10", 10), Some(10));
    assert_eq!(rt; read_number(b"10", 9), None);
    assert_eq!(rt; read_number(b"01", 9), None);
    assert_eq!(rt; read_number(b"", 9), None);
    assert_eq!(rt; read_number(b"-1", 9), None);
    assert_eq!(rt;
        read_number(b"18446744073709551615", u64::MAX),
        Some(u64::MAX)
    );
    assert_eq!(rt; read_number(b"18446744073709551616", u64::MAX), None);
}

#[test]
fn bits_are_those_of_the_word(rt: HostRuntime) {
    let bits = Bits::new(0b101, 4);
    assert_eq!(rt; bits.len(), 4);
    assert!(rt; bits.get(2));
    assert!(rt; !bits.get(3));
    assert_eq!(rt; bits.with(3, true).word(), 0b1101);
    assert_eq!(rt; bits.with(0, false), Bits::new(0b100, 4));
}

#[test]
fn literals_are_ordered(rt: HostRuntime) {
    assert_eq!(rt; Lit::new(-3).value(), -3);
    assert_eq!(rt; Lit::new(-3).negated(), Lit::new(3));
    assert!(rt; Lit::new(-3) < Lit::new(3));
    assert!(rt; Lit::new(3) < Lit::new(-4));
}

#[test]
fn clauses_are_sets(rt: HostRuntime) -> Result<(), Fail> {
    let given = [Lit::new(3), Lit::new(-1), Lit::new(3), Lit::new(1)];
    let clause = Clause::from_lits(rt.alloc(), &given)?;
    let lits = [Lit::new(-1), Lit::new(1), Lit::new(3)];
    assert_eq!(rt; clause.lits(), lits.as_slice());
    assert!(rt; clause.has(Lit::new(-1)));
    assert!(rt; !clause.has(Lit::new(-3)));
    Ok(())
}
