use crate::checks::same;
use lt_item::{ItemView, Kind};
use lt_mem::MemTable;
use std::test::Fail;

#[test]
fn the_newest_item_of_each_key(rt: HostRuntime) -> Result<(), Fail> {
    let mut table = MemTable::new(rt.alloc())?;
    same(&rt, table.get(b"a"), None);
    table.put(b"a", b"1");
    table.put(b"b", b"2");
    table.delete(b"a");
    table.put(b"b", b"33");
    same(&rt, table.bytes(), 6 + 6 + 5 + 7);

    let a = ItemView {
        kind: Kind::Delete,
        key: b"a",
        value: b"",
    };
    let b = ItemView {
        kind: Kind::Put,
        key: b"b",
        value: b"33",
    };
    same(&rt, table.get(b"a"), Some(a));
    same(&rt, table.get(b"b"), Some(b));
    same(&rt, table.get(b"c"), None);

    // The suffix of `b` is 0xe7c92d6d, and that of `a` is 0xfaa5a7fc.
    let batch = table.batch(rt.alloc())?;
    let mut items = batch.iter();
    same(&rt, items.next().map(|item| item.view()), Some(b));
    same(&rt, items.next().map(|item| item.view()), Some(a));
    same(&rt, items.len(), 0);

    table.clear();
    same(&rt, table.bytes(), 0);
    same(&rt, table.get(b"b"), None);
    Ok(())
}

/// Puts a value of one byte in, or a delete, where there is room.
fn add(table: &mut MemTable, key: u8, value: Option<u8>) {
    if table.bytes() > 204_086 {
        return;
    }
    match value {
        Some(byte) => table.put(&[key], &[byte]),
        None => table.delete(&[key]),
    }
}

/// The byte of the newest value, `None` within for a delete.
fn newest(table: &MemTable, key: u8) -> Option<Option<u8>> {
    let item = table.get(&[key])?;
    Some(item.value.first().copied())
}

#[test]
fn a_plain_map_has_the_same(rt: HostRuntime) -> Result<(), Fail> {
    let mut table = MemTable::new(rt.alloc())?;
    let mut plain: [Option<Option<u8>>; 256] = [None; 256];
    let mut draw = 7u32;
    for _ in 0..1000 {
        draw = draw.wrapping_mul(1_664_525).wrapping_add(1_013_904_223);
        let key = (draw >> 24) as u8;
        let value = match draw >> 8 & 3 {
            0 => None,
            _ => Some((draw >> 16 & 255) as u8),
        };
        add(&mut table, key, value);
        plain[key as usize] = Some(value);
    }
    for key in 0..256 {
        same(&rt, (key, newest(&table, key as u8)), (key, plain[key]));
    }
    Ok(())
}

#[test]
fn items_of_least_cost_fill_the_table(rt: HostRuntime) -> Result<(), Fail> {
    let mut table = MemTable::new(rt.alloc())?;
    for number in 0..40_818u32 {
        add(&mut table, (number % 251) as u8, None);
    }
    same(&rt, table.bytes(), 204_090);
    same(&rt, newest(&table, 250), Some(None));
    same(&rt, newest(&table, 251), None);
    Ok(())
}
