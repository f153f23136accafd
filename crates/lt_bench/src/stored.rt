//! A table on a device in memory, and gets of its keys.

ghost use Rattle.std.specs.Prelude.{◌≡◌, ◌<◌, IfOk, IsTrue, length, map};
ghost use Rattle.lt_tables.specs.Placement.{entry_of, has_placement};
ghost use Rattle.lt_tables.specs.Table.{newest};

use crate::plain_look::{plain_bucket, plain_get};
use lt_balance::{are_entries, place};
use lt_bloom::FilterPage;
use lt_bucket::{BucketView, Item};
use lt_device::Device;
use lt_htable::{BuildFault, build, entries_of, look};
use lt_item::parts_of;
use lt_mem::MemTable;
use lt_page::{NoMemory, Page};
use std::alloc::Global;

/// How many keys the table has. Its buckets are half full.
pub const KEYS: u64 = 2000;

/// So many times each key is got, and so many times 64 buckets are decoded.
const ROUNDS: u32 = 100;

/// Items of 64 bytes in rank order, so many that the buckets of their table are half full.
pub fn stored_items(alloc: Global) -> Result<Vec<Item>, NoMemory>
    ensures { IfOk result (λ items. newest items.items ≡ items.items) }
{
    let mut table = MemTable::new(alloc)?;
    for number in 0..KEYS {
        if table.bytes() <= 200_000 {
            table.put(&number.to_be_bytes(), &[7; 52]);
        }
    }
    let items = table.batch(alloc)?;
    Ok(items)
}

/// Builds the table of these items from block 0 on.
pub fn store<D: Device>(
    alloc: Global,
    device: &mut D,
    items: &[Item],
) -> Result<FilterPage, BuildFault>
    requires { newest items.now ≡ items.now }
{
    if !may_build(alloc, items)? || device.blocks() < 65 {
        return Err(BuildFault::Device);
    }
    build(alloc, device, 0, items)
}

/// Whether a table may be built of these items.
pub fn may_build(alloc: Global, items: &[Item]) -> Result<bool, NoMemory>
    requires { newest items.now ≡ items.now }
    ensures some { IfOk result (λ may. IsTrue may → 0 < length items.now) }
    ensures placed { IfOk result (λ may. IsTrue may → IsTrue (has_placement (map entry_of items.now))) }
{
    let entries = entries_of(alloc, items)?;
    if items.is_empty() || !are_entries(&entries) {
        return Ok(false);
    }
    Ok(place(alloc, &entries)?.is_some())
}

/// Gets each key of the table, and answers how many were found.
pub fn found_stored<D: Device>(
    memory: &MemTable,
    filters: &FilterPage,
    device: &mut D,
    page: &mut Page,
) -> u32 {
    let mut found = 0u32;
    for _ in 0..ROUNDS {
        for number in 0..KEYS {
            if is_stored(memory, filters, device, &number.to_be_bytes(), page) {
                found = found.saturating_add(1);
            }
        }
    }
    found
}

fn is_stored<D: Device>(
    memory: &MemTable,
    filters: &FilterPage,
    device: &mut D,
    key: &[u8],
    page: &mut Page,
) -> bool {
    let parts = parts_of(key);
    if memory.find(key, &parts).is_some() {
        return true;
    }
    if !filters.covers(parts.column, &parts) || device.blocks() < 65 {
        return false;
    }
    matches!(look(device, 0, key, &parts, page), Ok(Some(_)))
}

/// The same by the plain get.
pub fn plain_found_stored<D: Device>(
    memory: &MemTable,
    filters: &FilterPage,
    device: &mut D,
    page: &mut Page,
) -> u32 {
    let mut found = 0u32;
    for _ in 0..ROUNDS {
        for number in 0..KEYS {
            if plain_get(memory, filters, device, &number.to_be_bytes(), page) {
                found = found.saturating_add(1);
            }
        }
    }
    found
}

/// Decodes a page again and again, and answers how often it spelled a bucket.
pub fn decoded(page: &Page) -> u32 {
    let mut spelled = 0u32;
    for _ in 0..64 * ROUNDS {
        if BucketView::of(page).is_some() {
            spelled = spelled.saturating_add(1);
        }
    }
    spelled
}

/// The same by the plain decoder.
pub fn plain_decoded(page: &Page) -> u32 {
    let mut spelled = 0u32;
    for _ in 0..64 * ROUNDS {
        if plain_bucket(page).is_some() {
            spelled = spelled.saturating_add(1);
        }
    }
    spelled
}
