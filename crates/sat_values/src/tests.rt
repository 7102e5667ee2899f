use crate::{ClauseSet, Clauses, Trace, compact};
use clause_defs::MAX_VARIABLE;
use pch_base::{Clause, Lit};
use std::test::Fail;
use std::thread;

#[test]
fn clauses_are_looked_up(rt: HostRuntime) -> Result<(), Fail> {
    let alloc = rt.alloc();
    let first = Clause::from_lits(alloc, &[Lit::new(1), Lit::new(-2)])?;
    let second = Clause::from_lits(alloc, &[Lit::new(2), Lit::new(3)])?;
    let absent = Clause::from_lits(alloc, &[Lit::new(1)])?;
    let empty = Clause::from_lits(alloc, &[])?;
    let mut list = Clauses::new(alloc);
    list.push(&first)?;
    list.push(&second)?;
    list.push(&first)?;
    assert_eq!(rt; list.len(), 3);
    let set = ClauseSet::from_clauses(alloc, MAX_VARIABLE, list)?;
    assert!(rt; set.has(first.lits()));
    assert!(rt; set.has(second.lits()));
    assert!(rt; !set.has(absent.lits()));
    assert!(rt; !set.has(empty.lits()));
    let (len, variables) = thread::join(&rt, || set.len(), || set.variables());
    assert_eq!(rt; len, 3);
    assert_eq!(rt; variables, MAX_VARIABLE);
    let there = thread::spawn(&rt, move || set.len())?;
    assert_eq!(rt; there.join(&rt), 3);
    Ok(())
}

#[test]
fn a_trace_keeps_its_clauses(rt: HostRuntime) -> Result<(), Fail> {
    let alloc = rt.alloc();
    let clause = Clause::from_lits(alloc, &[Lit::new(7), Lit::new(-2)])?;
    let mut trace = Trace::empty(alloc);
    trace.push(5, clause.lits(), &[])?;
    assert_eq!(rt; trace.len(), 1);
    assert_eq!(rt; trace.index(0), 5);
    assert_eq!(rt; trace.lits(0), clause.lits());
    assert_eq!(rt; trace.antecedents(0).len(), 0);
    assert_eq!(rt; trace.greatest_variable(), 7);
    trace.push(6, clause.lits(), &[0])?;
    trace.push_compact(8, &[1])?;
    trace.push(9, &[], &[2, 0])?;
    let trace = compact(alloc, trace)?;
    assert!(rt; !trace.is_compact(0));
    assert!(rt; trace.is_compact(1));
    assert_eq!(rt; trace.lits(1).len(), 0);
    assert!(rt; trace.is_compact(2));
    assert!(rt; !trace.is_compact(3));
    let (len, greatest) = thread::join(&rt, || trace.len(), || trace.greatest_variable());
    assert_eq!(rt; len, 4);
    assert_eq!(rt; greatest, 7);
    let there = thread::spawn(&rt, move || trace.len())?;
    assert_eq!(rt; there.join(&rt), 4);
    Ok(())
}
