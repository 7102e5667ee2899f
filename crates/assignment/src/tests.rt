use crate::Assignment;
use pch_base::Lit;
use std::test::Fail;

#[test]
fn values_come_and_go(rt: HostRuntime) -> Result<(), Fail> {
    let mut values = Assignment::new(rt.alloc(), 2)?;
    values.put(Lit::new(-2));
    assert_eq!(rt; values.value(2), Some(false));
    values.back_to(0);
    assert_eq!(rt; values.len(), 0);
    assert_eq!(rt; values.value(2), None);
    Ok(())
}
