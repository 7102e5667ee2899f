use crate::FlatLists;
use std::test::Fail;

#[test]
fn lists_are_kept_in_their_order(rt: HostRuntime) -> Result<(), Fail> {
    let mut lists: FlatLists<u32> = FlatLists::new(rt.alloc());
    lists.push(&[7, 8])?;
    lists.push(&[])?;
    lists.reserve(1, 1)?;
    lists.push_reserved(&[9]);
    assert_eq!(rt; lists.len(), 3);
    assert_eq!(rt; lists.total(), 3);
    assert_eq!(rt; lists.get(0), [7, 8].as_slice());
    assert_eq!(rt; lists.get(2), [9].as_slice());
    lists.pop();
    assert_eq!(rt; lists.len(), 2);
    assert_eq!(rt; lists.total(), 2);
    Ok(())
}

#[test]
fn there_is_room_from_the_start(rt: HostRuntime) -> Result<(), Fail> {
    let mut lists: FlatLists<u8> = FlatLists::with_capacity(rt.alloc(), 1, 2)?;
    lists.push_reserved(&[5, 6]);
    assert_eq!(rt; lists.get(0), [5, 6].as_slice());
    Ok(())
}
