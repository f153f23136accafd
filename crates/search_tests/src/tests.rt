ghost use Rattle.std.specs.Prelude.{◌≡◌, ◌+◌, ◌≤◌, IfOk, IsTrue};
ghost use Rattle.std.specs.List.{AllByRecursion};
ghost use Rattle.lt_tables.specs.Table.{newest};
ghost use Rattle.lt_format.specs.Layout.{extent_block};
ghost use Rattle.lt_format.specs.Trie.{named};

use lt_balance::{are_entries, place};
use lt_bloom::FilterPage;
use lt_bucket::Item;
use lt_container::write_group;
use lt_device::{Device, Steady};
use lt_format::{Geometry, NodeId};
use lt_htable::{BuildFault, LookFault, build, entries_of};
use lt_item::{ItemView, Kind, cost, parts_of};
use lt_mem::MemTable;
use lt_node::{Change, ChildChange, Children, Numbers, Trie, path};
use lt_page::{NoMemory, Page};
use lt_search::{InnerFilters, Version, search};
use std::alloc::Global;
use std::test::Fail;

/// Two levels, so that the root's children are of the last level.
const GEOMETRY: Geometry = Geometry {
    levels: 2,
    slots: 1,
};

/// Room for eight extents.
const BLOCKS: u64 = 872 + 65 * 8;

/// Puts an item in, if it is valid and there is room.
fn put(table: &mut MemTable, key: &[u8], value: &[u8]) {
    let item = ItemView {
        kind: Kind::Put,
        key,
        value,
    };
    if !item.is_valid() {
        return;
    }
    if table.bytes() <= 204_092 - u32::from(cost(&item)) {
        table.put(key, value);
    }
}

/// One item.
fn items_of(alloc: Global, key: &[u8], value: &[u8]) -> Result<Vec<Item>, NoMemory>
    ensures { IfOk result (λ items. newest items.items ≡ items.items) }
{
    let mut table = MemTable::new(alloc)?;
    put(&mut table, key, value);
    table.batch(alloc)
}

/// Builds the table of one item in an extent.
fn build_one<D: Device>(
    alloc: Global,
    device: &mut D,
    extent: u32,
    key: &[u8],
    value: &[u8],
) -> Result<FilterPage, BuildFault> {
    let items = items_of(alloc, key, value)?;
    let entries = entries_of(alloc, &items)?;
    if items.is_empty() || !are_entries(&entries) {
        return Err(BuildFault::Device);
    }
    let first = GEOMETRY.extent(extent);
    if place(alloc, &entries)?.is_none() || device.blocks() < first + 65 {
        return Err(BuildFault::Device);
    }
    build(alloc, device, first, &items)
}

fn numbers(alloc: Global, list: &[u32]) -> Result<Numbers, NoMemory> {
    Ok(Numbers::of(Vec::from_slice(alloc, list)?))
}

/// Makes the change where it fits.
fn make(alloc: Global, trie: &mut Trie, change: Change) -> Result<(), NoMemory> {
    if trie.fits(&change) {
        trie.apply(alloc, &change)?;
    }
    Ok(())
}

/// The root has tables 0 and 1, and the last-level node of key `a` tables 2, 3 and 4 with group 5.
fn trie_of(alloc: Global) -> Result<Trie, NoMemory> {
    let mut trie = Trie::new(alloc, 2)?;
    let flush = Change::Flush {
        tables: numbers(alloc, &[6, 0, 1])?,
    };
    make(alloc, &mut trie, flush)?;
    let child = ChildChange {
        node: path(&parts_of(b"a"), 1),
        tables: numbers(alloc, &[2, 3, 4])?,
        kept_groups: 0,
        groups: numbers(alloc, &[5])?,
    };
    let deal = Change::Deal {
        node: NodeId::ROOT,
        dropped: 1,
        children: Children::of(vec![in alloc; child]?),
    };
    make(alloc, &mut trie, deal)?;
    Ok(trie)
}

fn group_of(
    alloc: Global,
    first: FilterPage,
    second: FilterPage,
    third: FilterPage,
) -> Result<Vec<FilterPage>, NoMemory> {
    let mut group = Vec::new(alloc);
    group.push(first)?;
    group.push(second)?;
    group.push(third)?;
    Ok(group)
}

/// Writes the group of extent 5.
fn write<D: Device>(
    alloc: Global,
    device: &mut D,
    filters: &[FilterPage],
) -> Result<(), BuildFault> {
    let first = GEOMETRY.extent(5);
    if device.blocks() < first + 65 || filters.is_empty() || filters.len() > 64 {
        return Err(BuildFault::Device);
    }
    match write_group(alloc, device, first, filters) {
        Ok(()) => Ok(()),
        Err(_) => Err(BuildFault::Device),
    }
}

/// What a search needs: the device, the trie, and the filters that are kept.
#[derive(Drop)]
struct Stored {
    device: Steady,
    trie: Trie,
    kept: InnerFilters,
}

/// The root's tables have `b` as 1 and then as 2; those below have `a` as 3 and then as 4, and then `c` as 5.
fn build_all(alloc: Global) -> Result<Stored, BuildFault> {
    let mut device = Steady::new(alloc, BLOCKS)?;
    let mut kept = InnerFilters::new(alloc, 8)?;
    kept.keep(0, build_one(alloc, &mut device, 0, b"b", &[1])?);
    kept.keep(1, build_one(alloc, &mut device, 1, b"b", &[2])?);
    let group = group_of(
        alloc,
        build_one(alloc, &mut device, 2, b"a", &[3])?,
        build_one(alloc, &mut device, 3, b"a", &[4])?,
        build_one(alloc, &mut device, 4, b"c", &[5])?,
    )?;
    write(alloc, &mut device, &group)?;
    let trie = trie_of(alloc)?;
    Ok(Stored { device, trie, kept })
}

/// Whether the device has all extents of the trie.
fn has_room<D: Device>(alloc: Global, device: &D, trie: &Trie) -> Result<bool, NoMemory>
    ensures { IfOk result (λ room. IsTrue room → AllByRecursion
        (λ x. extent_block GEOMETRY x + 65 ≤ D.blocks device.now) (named trie.now.nodes)) }
{
    let extents = trie.referenced(alloc)?;
    let blocks = device.blocks();
    for x in &extents {
        if GEOMETRY.extent(*x) + 65 > blocks {
            return Ok(false);
        }
    }
    Ok(true)
}

/// What was found of a key, the first byte of its value, and how many blocks were read.
type Found = (Result<Option<Version>, LookFault>, u8, u64);

fn find(alloc: Global, stored: &mut Stored, key: &[u8]) -> Result<Found, NoMemory> {
    let mut column = Page::new(alloc)?;
    let mut page = Page::new(alloc)?;
    let mut out = Page::new(alloc)?;
    let before = stored.device.reads();
    if stored.trie.levels() != 2 || !has_room(alloc, &stored.device, &stored.trie)? {
        return Ok((Err(LookFault::Device), 0, 0));
    }
    let answer = search(
        &mut stored.device,
        &GEOMETRY,
        &stored.trie,
        &stored.kept,
        key,
        &parts_of(key),
        &mut column,
        &mut page,
        &mut out,
    );
    let reads = stored.device.reads().wrapping_sub(before);
    Ok((answer, out.byte(0), reads))
}

/// Fills a block with one byte.
fn fill<D: Device>(alloc: Global, device: &mut D, block: u64, byte: u8) -> Result<(), NoMemory> {
    let mut page = Page::new(alloc)?;
    page.fill_from(0, &[byte; Page::LEN]);
    if block < device.blocks() {
        let _ = device.write(block, &page);
    }
    Ok(())
}

/// The block of the column of key `a` in an extent.
fn block_of(extent: u32) -> u64 {
    GEOMETRY.extent(extent) + u64::from(parts_of(b"a").column)
}

#[test]
fn the_newest_table_of_an_inner_pile_decides(rt: HostRuntime) -> Result<(), Fail> {
    let mut stored = build_all(rt.alloc())?;
    assert_eq!(rt;
        find(rt.alloc(), &mut stored, b"b")?,
        (Ok(Some(Version::Value(1))), 2, 1)
    );
    Ok(())
}

#[test]
fn below_the_root_the_group_is_asked_once(rt: HostRuntime) -> Result<(), Fail> {
    let mut stored = build_all(rt.alloc())?;
    // One block of the group, and one bucket: that of the newer table with the key.
    assert_eq!(rt;
        find(rt.alloc(), &mut stored, b"a")?,
        (Ok(Some(Version::Value(1))), 4, 2)
    );
    Ok(())
}

#[test]
fn the_column_of_the_group_decides_and_not_the_tables_own_filters(
    rt: HostRuntime,
) -> Result<(), Fail> {
    let mut stored = build_all(rt.alloc())?;
    fill(rt.alloc(), &mut stored.device, block_of(5), 0)?;
    assert_eq!(rt; find(rt.alloc(), &mut stored, b"a")?, (Ok(None), 0, 1));
    // Where it says yes for each, the newest table's bucket is read too.
    fill(rt.alloc(), &mut stored.device, block_of(5), 255)?;
    assert_eq!(rt;
        find(rt.alloc(), &mut stored, b"a")?,
        (Ok(Some(Version::Value(1))), 4, 3)
    );
    Ok(())
}

#[test]
fn a_spoiled_bucket_on_the_path_is_told_by_its_block(rt: HostRuntime) -> Result<(), Fail> {
    let mut stored = build_all(rt.alloc())?;
    // The older table is not read.
    fill(rt.alloc(), &mut stored.device, block_of(2), 255)?;
    assert_eq!(rt;
        find(rt.alloc(), &mut stored, b"a")?,
        (Ok(Some(Version::Value(1))), 4, 2)
    );
    fill(rt.alloc(), &mut stored.device, block_of(3), 255)?;
    let damaged = Err(LookFault::Damaged(block_of(3)));
    assert_eq!(rt; find(rt.alloc(), &mut stored, b"a")?, (damaged, 0, 2));
    Ok(())
}
