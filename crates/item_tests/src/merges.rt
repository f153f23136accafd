use crate::checks::{check, same};
use lt_bucket::Item;
use lt_item::{ItemView, Kind, parts_of};
use lt_merge::{deal_by, newest, without_deletes};
use lt_page::NoMemory;
use std::alloc::Global;
use std::test::Fail;

/// An item with a key of one byte: a put of this byte, or a delete.
fn item(alloc: Global, key: u8, value: Option<u8>) -> Result<Item, NoMemory> {
    match value {
        Some(value) => copy(alloc, Kind::Put, &[key], &[value]),
        None => copy(alloc, Kind::Delete, &[key], &[]),
    }
}

fn copy(alloc: Global, kind: Kind, key: &[u8], value: &[u8]) -> Result<Item, NoMemory> {
    let view = ItemView { kind, key, value };
    if view.is_valid() {
        Item::copy(alloc, &view)
    } else {
        Err(NoMemory)
    }
}

fn items(alloc: Global, rows: &[(u8, Option<u8>)]) -> Result<Vec<Item>, NoMemory> {
    let mut items = Vec::new(alloc);
    for (key, value) in rows {
        items.push(item(alloc, *key, *value)?)?;
    }
    Ok(items)
}

/// The key and the value of an item.
fn row(item: &Item) -> (u8, Option<u8>) {
    let view = item.view();
    (
        view.key.first().copied().unwrap_or(0),
        view.value.first().copied(),
    )
}

#[test]
fn the_newest_of_each_key_come_in_rank_order(rt: HostRuntime) -> Result<(), Fail> {
    let old = [(1, Some(1)), (2, Some(1)), (3, Some(1)), (2, Some(2))];
    let new = [(3, None), (4, Some(3)), (1, Some(3))];
    let mut lists = Vec::new(rt.alloc());
    lists.push(items(rt.alloc(), &old)?)?;
    lists.push(Vec::new(rt.alloc()))?;
    lists.push(items(rt.alloc(), &new)?)?;
    let newest = newest(rt.alloc(), &mut lists)?;
    check(&rt, lists.is_empty());
    same(&rt, newest.len(), 4);
    for wanted in [(1, Some(3)), (2, Some(2)), (3, None), (4, Some(3))] {
        check(&rt, newest.iter().any(|item| row(item) == wanted));
    }
    let mut before = 0;
    for item in &newest {
        let suffix = item.parts().suffix;
        check(&rt, before < suffix);
        before = suffix;
    }
    Ok(())
}

#[test]
fn items_are_dealt_by_their_digit_in_order(rt: HostRuntime) -> Result<(), Fail> {
    let mut all = Vec::new(rt.alloc());
    for key in 0..100u8 {
        let value = if key % 3 == 0 { None } else { Some(key) };
        all.push(item(rt.alloc(), key, value)?)?;
    }
    let lists = deal_by(rt.alloc(), &mut all, 1)?;
    check(&rt, all.is_empty());
    same(&rt, lists.len(), 8);
    let mut count = 0u8;
    for (digit, list) in lists.iter().enumerate() {
        let mut before = None;
        for item in list {
            let (key, value) = row(item);
            same(&rt, usize::from(parts_of(&[key]).digits[1]), digit);
            same(&rt, value.is_none(), key % 3 == 0);
            check(&rt, before < Some(key));
            before = Some(key);
            count = count.wrapping_add(1);
        }
    }
    same(&rt, count, 100);
    Ok(())
}

#[test]
fn only_puts_are_left(rt: HostRuntime) -> Result<(), Fail> {
    let rows = [(1, Some(1)), (2, None), (3, Some(3)), (4, None)];
    let puts = without_deletes(items(rt.alloc(), &rows)?);
    same(&rt, puts.len(), 2);
    check(&rt, puts.iter().all(|item| row(item).1.is_some()));
    Ok(())
}
