ghost use Rattle.std.specs.Prelude.{◌≡◌, ◌∷◌, [], Some, None, IsTrue};
ghost use Rattle.lt_terms.specs.Items.{is_valid};
ghost use Rattle.lt_item.specs.Views.{item_of};
ghost use Rattle.lt_tables.specs.Bucket.{bucket_of};

use crate::checks::{check, same};
use lt_bucket::{BucketBuilder, BucketView, Item, Key, Look, Sends};
use lt_item::{ItemView, Kind, parts_of};
use lt_page::{NoMemory, Page};
use std::test::Fail;

const PUT: ItemView<'static> = ItemView {
    kind: Kind::Put,
    key: b"k",
    value: b"v",
};

// What a caller knows of the page once the builder is done.
fn build_one(page: &mut Page, item: &ItemView<'_>)
    requires { IsTrue (is_valid (item_of item.now)) }
    ensures { bucket_of page.new ≡ Some (record { sends = None; items = item_of item.now ∷ [] }) }
{
    let mut builder = BucketBuilder::start(page);
    builder.add(item);
    builder.finish(None);
}

#[test]
fn one_item_on_a_page(rt: HostRuntime) -> Result<(), Fail> {
    let mut page = Page::new(rt.alloc())?;
    check(&rt, BucketView::of(&page).is_none());
    check(&rt, PUT.is_valid());

    page.fill_from(2000, b"left from before");
    build_one(&mut page, &PUT);
    let (spelled, rest) = page.bytes().split_at(22);
    same(
        &rt,
        spelled,
        b"\x00\x01\x00\x06\x00\x00\x00\x00\x00\x00\x01\x00\x00\x00\x00\x00\x01\x01\x00\x01kv".as_slice(),
    );
    check(&rt, rest.iter().all(|byte| *byte == 0));

    let bucket = BucketView::of(&page).ok_or("no bucket")?;
    same(&rt, bucket.count(), 1);
    same(&rt, bucket.sends(), None);
    let mut items = bucket.items();
    same(&rt, items.next(), Some(PUT));
    same(&rt, items.next(), None);
    same(&rt, bucket.find(b"k", &parts_of(b"k")), Look::Here(PUT));
    same(&rt, bucket.find(b"abc", &parts_of(b"abc")), Look::Absent);
    Ok(())
}

#[test]
fn suffixes_from_the_mark_on_are_sent(rt: HostRuntime) -> Result<(), Fail> {
    let abc = parts_of(b"abc");
    for (mark, look) in [
        (abc.suffix.saturating_sub(1), Look::Moved(63)),
        (abc.suffix, Look::Moved(63)),
        (abc.suffix.saturating_add(1), Look::Absent),
    ] {
        let mut page = Page::new(rt.alloc())?;
        BucketBuilder::start(&mut page).finish(Some(Sends { target: 63, mark }));
        let bucket = BucketView::of(&page).ok_or("no bucket")?;
        same(&rt, bucket.sends(), Some(Sends { target: 63, mark }));
        same(&rt, (mark, bucket.find(b"abc", &abc)), (mark, look));
    }
    Ok(())
}

#[test]
fn no_bucket_is_spelled(rt: HostRuntime) -> Result<(), Fail> {
    check(&rt, PUT.is_valid());
    let changes = [
        (0, 2),
        (1, 0),
        (3, 5),
        (3, 7),
        (4, 1),
        (5, 1),
        (9, 1),
        (10, 0),
        (10, 2),
        (15, 1),
        (16, 3),
        (22, 1),
        (4095, 1),
    ];
    for (at, value) in changes {
        let mut page = Page::new(rt.alloc())?;
        build_one(&mut page, &PUT);
        check(&rt, at < Page::LEN);
        page.set(at, value);
        // A bucket may send to column 0 from suffix 0 on.
        same(
            &rt,
            (at, value, BucketView::of(&page).is_some()),
            (at, value, at == 4),
        );
    }
    Ok(())
}

#[test]
fn owned_items_and_keys(rt: HostRuntime) -> Result<(), NoMemory> {
    check(&rt, PUT.is_valid());
    let item = Item::copy(rt.alloc(), &PUT)?;
    same(&rt, item.view(), PUT);
    same(&rt, item.parts(), &parts_of(b"k"));
    let key = Key::copy(rt.alloc(), b"k")?;
    same(&rt, key.bytes(), b"k".as_slice());
    Ok(())
}
