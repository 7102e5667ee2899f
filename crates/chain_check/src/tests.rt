use crate::{Room, Verdict, check_room};
use clause_defs::MAX_VARIABLE;
use pch_base::{Clause, Lit};
use sat_values::{ClauseSet, Clauses, Trace};
use std::test::Fail;

#[test]
fn the_room_limits_computed_clauses(rt: HostRuntime) -> Result<(), Fail> {
    let alloc = rt.alloc();
    let unit = Clause::from_lits(alloc, &[Lit::new(1)])?;
    let mut list = Clauses::new(alloc);
    list.push(&unit)?;
    let formula = ClauseSet::from_clauses(alloc, MAX_VARIABLE, list)?;
    let mut trace = Trace::empty(alloc);
    trace.push(26, unit.lits(), &[])?;
    trace.push_compact(27, &[0])?;
    let mut narrow = Room::open(alloc, &trace, 0)?;
    let mut room = Room::open(alloc, &trace, 1)?;
    assert_eq!(rt;
        check_room(&formula, &trace, &mut narrow),
        Verdict::TooWide { clause: 27 }
    );
    assert_eq!(rt;
        check_room(&formula, &trace, &mut room),
        Verdict::NotEmptyEnd
    );
    Ok(())
}
