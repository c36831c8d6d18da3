// Lists whose items are moved out.

use owned_lists::Drain;
use sqlite_items::Items;
use std::test::Fail;

#[test]
fn items_are_moved_out_from_the_front(rt: HostRuntime) -> Result<(), Fail> {
    let alloc = rt.alloc();
    let mut drain = Drain::new(alloc, Items::from_slice(alloc, &[5_u32, 6, 7])?)?;
    assert!(rt; drain.len() == 3);
    assert!(rt; matches!(drain.next(), Some(5)) && matches!(drain.next(), Some(6)));
    assert!(rt; matches!(drain.next(), Some(7)) && drain.next().is_none());
    Ok(())
}
