use crate::checks::{check, same};
use lt_bloom::{FilterPage, covers_at};
use lt_item::parts_of;
use lt_page::Page;
use std::test::Fail;

#[test]
fn one_key_sets_six_bits(rt: HostRuntime) -> Result<(), Fail> {
    let parts = parts_of(b"abc");
    let mut filters = FilterPage::new(rt.alloc())?;
    check(&rt, !filters.covers(15, &parts));
    filters.add(15, &parts);
    check(
        &rt,
        filters.covers(15, &parts) && covers_at(filters.page(), 15, &parts),
    );
    check(
        &rt,
        !filters.covers(14, &parts) && !filters.covers(16, &parts),
    );
    check(&rt, !filters.covers(15, &parts_of(b"")));

    for (at, byte) in filters.page().bytes().iter().enumerate() {
        let expected = match at.wrapping_sub(15 * 64) {
            7 => 0x02,
            10 => 0x80,
            13 => 0x08,
            19 => 0x04,
            26 => 0x80,
            46 => 0x40,
            _ => 0,
        };
        same(&rt, (at, *byte), (at, expected));
    }
    Ok(())
}

#[test]
fn filters_are_read_from_their_page(rt: HostRuntime) -> Result<(), Fail> {
    let parts = parts_of(b"abc");
    let mut filters = FilterPage::new(rt.alloc())?;
    filters.add(63, &parts);
    let mut page = Page::new(rt.alloc())?;
    page.copy_from(filters.page());
    check(&rt, FilterPage::from_page(page).covers(63, &parts));
    Ok(())
}
