//! A bucket decoded and a key looked up as they were before: zeros are tested byte by byte, a key is
//! hashed for each place where it is looked for, and the home bucket is decoded and searched twice.

use lt_bloom::FilterPage;
use lt_bucket::{Items, Look, Sends};
use lt_device::Device;
use lt_item::{Parts, parts_of};
use lt_mem::MemTable;
use lt_page::Page;

/// A bucket that was decoded from its page.
#[derive(Drop)]
pub struct PlainBucket<'a> {
    sends: Option<Sends>,
    items: Items<'a>,
}

/// The bucket that a page spells.
pub fn plain_bucket(page: &Page) -> Option<PlainBucket<'_>> {
    if page.byte(10) != 1 {
        return None;
    }
    let end = 16 + page.number_u16(2) as usize;
    let bytes = page.bytes();
    if !plain_zero(bytes.get(11..16)?) || !plain_zero(bytes.get(end..)?) {
        return None;
    }
    let sends = match (page.byte(4), page.byte(5), page.number_u32(6)) {
        (0, 0, 0) => None,
        (1, target, mark) if target < 64 => Some(Sends { target, mark }),
        _ => return None,
    };
    let items = Items::of(page.number_u16(0), bytes.get(16..end)?)?;
    Some(PlainBucket { sends, items })
}

fn plain_zero(bytes: &[u8]) -> bool {
    bytes.iter().all(|byte| *byte == 0)
}

/// What a bucket answers on a key.
fn plain_find<'a>(bucket: &PlainBucket<'a>, key: &[u8], suffix: u32) -> Look<'a> {
    for item in bucket.items.again() {
        if item.key == key {
            return Look::Here(item);
        }
    }
    match bucket.sends {
        Some(sends) if sends.mark <= suffix => Look::Moved(sends.target),
        _ => Look::Absent,
    }
}

/// Whether the memory table or the table on the device holds the key.
pub fn plain_get<D: Device>(
    memory: &MemTable,
    filters: &FilterPage,
    device: &mut D,
    key: &[u8],
    page: &mut Page,
) -> bool {
    if memory.get(key).is_some() {
        return true;
    }
    let parts = parts_of(key);
    if !filters.covers(parts.column, &parts) || !read(device, parts.column, page) {
        return false;
    }
    if let Some(target) = plain_target(page, key, &parts) {
        if !read(device, target, page) {
            return false;
        }
    }
    match plain_bucket(page) {
        Some(bucket) => matches!(plain_find(&bucket, key, parts.suffix), Look::Here(_)),
        None => false,
    }
}

fn plain_target(page: &Page, key: &[u8], parts: &Parts) -> Option<u8> {
    match plain_find(&plain_bucket(page)?, key, parts.suffix) {
        Look::Moved(target) => Some(target),
        _ => None,
    }
}

/// Reads a bucket of the table that begins at block 0.
fn read<D: Device>(device: &mut D, column: u8, page: &mut Page) -> bool {
    let block = u64::from(column);
    block < device.blocks() && device.read(block, page).is_ok()
}
