use crate::Log;
use clause_defs::MAX_VARIABLE;
use pch_base::{Clause, Lit};
use sat_values::{ClauseSet, Clauses};
use std::test::Fail;

#[test]
fn a_log_opens_and_becomes_a_trace(rt: HostRuntime) -> Result<(), Fail> {
    let alloc = rt.alloc();
    let clause = Clause::from_lits(alloc, &[Lit::new(1)])?;
    let mut list = Clauses::new(alloc);
    list.push(&clause)?;
    let originals = ClauseSet::from_clauses(alloc, MAX_VARIABLE, list)?;
    assert_eq!(rt; originals.len(), 1);
    let log = Log::open(alloc, originals, 6)?;
    assert_eq!(rt; log.find(clause.lits()), None);
    assert_eq!(rt; log.used(), 0);
    assert_eq!(rt; log.originals().len(), 1);
    let trace = log.into_trace(alloc)?;
    assert_eq!(rt; trace.len(), 1);
    assert_eq!(rt; trace.index(0), 1);
    Ok(())
}
