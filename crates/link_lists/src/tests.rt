use crate::Links;
use std::test::Fail;

#[test]
fn numbers_go_from_list_to_list(rt: HostRuntime) -> Result<(), Fail> {
    let mut links = Links::new(rt.alloc(), 2, 2)?;
    links.push(1, 0);
    links.turn(1, 0);
    assert_eq!(rt; links.pop(1), None);
    assert_eq!(rt; links.pop(0), Some(0));
    Ok(())
}
