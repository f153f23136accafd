use lt_alloc::{Extents, Short};
use std::test::Fail;

#[test]
fn no_more_are_taken_than_are_free(rt: HostRuntime) -> Result<(), Fail> {
    let mut extents = Extents::of(rt.alloc(), 2, &[])?;
    let mut numbers = Vec::with_capacity(rt.alloc(), 3)?;
    assert_eq!(rt;
        extents.take(3, &mut numbers),
        Err(Short { needed: 3, free: 2 })
    );
    assert!(rt; numbers.is_empty() && extents.free() == 2 && extents.is_free(1));

    assert_eq!(rt; extents.take(2, &mut numbers), Ok(()));
    assert!(rt; !extents.is_free(0) && !extents.is_free(1));

    extents.give(1);
    assert_eq!(rt; extents.free(), 1);
    assert!(rt; !extents.is_free(0) && extents.is_free(1));
    Ok(())
}

#[test]
fn what_is_given_back_is_free(rt: HostRuntime) -> Result<(), Fail> {
    let mut extents = Extents::of(rt.alloc(), 2, &[1, 0])?;
    assert_eq!(rt; extents.free(), 0);
    assert!(rt; !extents.is_free(0) && !extents.is_free(1) && !extents.is_free(2));
    extents.give(1);
    assert_eq!(rt; extents.free(), 1);
    assert!(rt; !extents.is_free(0) && extents.is_free(1));
    Ok(())
}
