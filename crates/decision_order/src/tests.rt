use crate::DecisionOrder;
use pch_base::Lit;
use std::test::Fail;

#[test]
fn what_meets_conflicts_lately_comes_first(rt: HostRuntime) -> Result<(), Fail> {
    let mut order = DecisionOrder::new(rt.alloc(), 2)?;
    order.bump(1);
    order.step();
    order.bump(2);
    assert!(rt; order.activity(1) < order.activity(2));
    order.remember(Lit::new(2));
    assert!(rt; order.phase(2));
    Ok(())
}
