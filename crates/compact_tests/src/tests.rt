ghost use Rattle.std.specs.Prelude.{◌≡◌, IfOk};
ghost use Rattle.lt_tables.specs.Table.{newest};

use crate::rig::{GEOMETRY, Rig};
use lt_alloc::Short;
use lt_balance::{are_entries, place};
use lt_bucket::Item;
use lt_compact::{JobFault, Stepped};
use lt_device::{Device, MemDevice};
use lt_format::NodeId;
use lt_htable::{BuildFault, build, entries_of, scan};
use lt_item::{ItemView, Kind, cost, parts_of};
use lt_mem::MemTable;
use lt_node::{Change, ChildChange, Children, Numbers, Trie};
use lt_page::{NoMemory, Page};
use std::alloc::Global;
use std::test::Fail;

/// A put of this value, or a delete.
type Row<'a> = (&'a [u8], Option<&'a [u8]>);

/// The root's tables, the oldest first: in extents 0 and 1. "a" and "b" have different first digits.
const OLD: [Row<'static>; 2] = [(b"a", Some(b"1")), (b"b", Some(b"2"))];

const NEW: [Row<'static>; 1] = [(b"a", None)];

/// The child of the root that gets a key.
fn child_of(key: &[u8]) -> NodeId {
    NodeId {
        level: 1,
        number: u16::from(parts_of(key).digits[0]),
    }
}

/// Puts an item in, if it is valid and there is room.
fn put(table: &mut MemTable, key: &[u8], value: Option<&[u8]>) {
    let item = ItemView {
        kind: if value.is_some() {
            Kind::Put
        } else {
            Kind::Delete
        },
        key,
        value: value.unwrap_or(&[]),
    };
    if !item.is_valid() {
        return;
    }
    if table.bytes() <= 204_092 - u32::from(cost(&item)) {
        table.add(&item, &parts_of(key));
    }
}

/// These items in rank order.
fn items_of(alloc: Global, rows: &[Row<'_>]) -> Result<Vec<Item>, NoMemory>
    ensures { IfOk result (λ items. newest items.items ≡ items.items) }
{
    let mut table = MemTable::new(alloc)?;
    for (key, value) in rows {
        put(&mut table, key, *value);
    }
    table.batch(alloc)
}

/// Builds the table of these items into an extent.
fn build_into(
    alloc: Global,
    device: &mut MemDevice,
    number: u32,
    rows: &[Row<'_>],
) -> Result<(), BuildFault> {
    let items = items_of(alloc, rows)?;
    let entries = entries_of(alloc, &items)?;
    if items.is_empty() || !are_entries(&entries) || place(alloc, &entries)?.is_none() {
        return Err(BuildFault::Device);
    }
    if device.blocks() < GEOMETRY.extent(number) + 65 {
        return Err(BuildFault::Device);
    }
    build(alloc, device, GEOMETRY.extent(number), &items)?;
    Ok(())
}

/// A synced device with so many extents, and the root's two tables in extents 0 and 1.
fn device_of(alloc: Global, extents: u32) -> Result<MemDevice, BuildFault> {
    let blocks = GEOMETRY.needed(extents);
    let mut device = MemDevice::new(alloc, blocks, 800, Vec::new(alloc), None)?;
    build_into(alloc, &mut device, 0, &OLD)?;
    build_into(alloc, &mut device, 1, &NEW)?;
    device.sync()?;
    Ok(device)
}

fn numbers(alloc: Global, list: &[u32]) -> Result<Numbers, NoMemory> {
    Ok(Numbers::of(Vec::from_slice(alloc, list)?))
}

/// Makes a change, if it fits.
fn make(alloc: Global, trie: &mut Trie, change: &Change) -> Result<(), NoMemory> {
    if trie.fits(change) {
        trie.apply(alloc, change)?;
    }
    Ok(())
}

/// A trie of two levels whose root has these tables.
fn flushed(alloc: Global, tables: &[u32]) -> Result<Trie, NoMemory> {
    let mut trie = Trie::new(alloc, 2)?;
    let change = Change::Flush {
        tables: numbers(alloc, tables)?,
    };
    make(alloc, &mut trie, &change)?;
    Ok(trie)
}

/// Gives a child of the root tables and groups, for the root's oldest table.
fn give(
    alloc: Global,
    trie: &mut Trie,
    node: NodeId,
    tables: &[u32],
    groups: &[u32],
) -> Result<(), NoMemory> {
    let child = ChildChange {
        node,
        tables: numbers(alloc, tables)?,
        kept_groups: 0,
        groups: numbers(alloc, groups)?,
    };
    let change = Change::Deal {
        node: NodeId::ROOT,
        dropped: 1,
        children: Children::of(vec![in alloc; child]?),
    };
    make(alloc, trie, &change)
}

/// The keys of the table in an extent, bucket after bucket; a deleted one in upper case.
fn keys(alloc: Global, device: &mut MemDevice, number: u32) -> Result<Vec<u8>, Fail> {
    let mut keys = Vec::new(alloc);
    if device.blocks() < GEOMETRY.extent(number) + 65 {
        return Ok(keys);
    }
    for item in &scan(alloc, device, GEOMETRY.extent(number))? {
        let view = item.view();
        for byte in view.key {
            keys.push(match view.kind {
                Kind::Put => *byte,
                Kind::Delete => byte.to_ascii_uppercase(),
            })?;
        }
    }
    Ok(keys)
}

/// A job at the root's two tables, where so many extents may be taken.
fn deal_of(alloc: Global, extents: u32) -> Result<Rig, Fail> {
    let device = device_of(alloc, 10)?;
    let trie = flushed(alloc, &[0, 1])?;
    Ok(Rig::begin(alloc, device, trie, NodeId::ROOT, extents)?.ok_or("it begins")?)
}

/// The keys of all tables of a key's child, bucket after bucket.
fn keys_of(
    alloc: Global,
    device: &mut MemDevice,
    trie: &Trie,
    key: &[u8],
) -> Result<Vec<u8>, Fail> {
    let mut all = Vec::new(alloc);
    for table in trie.pile(child_of(key)) {
        all.extend_from_slice(&keys(alloc, device, *table)?)?;
    }
    Ok(all)
}

#[test]
fn a_deal_keeps_a_delete_and_a_rewriting_removes_it(rt: HostRuntime) -> Result<(), Fail> {
    let alloc = rt.alloc();
    let mut rig = deal_of(alloc, 10)?;
    // For each of two children a table and a group.
    let run = rig.run(alloc);
    assert_eq!(rt; run.planned, Some((4, false)));
    assert_eq!(rt; (run.last, run.steps), (Ok(Stepped::Ready), 8));
    assert_eq!(rt; rig.free(), 4);

    let (mut device, trie) = rig.into_parts(alloc)?;
    assert!(rt; trie.pile(NodeId::ROOT).is_empty());
    assert_eq!(rt;
        keys_of(alloc, &mut device, &trie, b"a")?.as_slice(),
        b"A".as_slice()
    );
    assert_eq!(rt;
        keys_of(alloc, &mut device, &trie, b"b")?.as_slice(),
        b"b".as_slice()
    );

    let node = child_of(b"a");
    let mut rig = Rig::begin(alloc, device, trie, node, 10)?.ok_or("it begins")?;
    let run = rig.run(alloc);
    assert_eq!(rt; run.planned, Some((0, true)));
    assert_eq!(rt; (run.last, run.steps), (Ok(Stepped::Ready), 3));
    let (_, trie) = rig.into_parts(alloc)?;
    assert!(rt; trie.pile(node).is_empty());
    Ok(())
}

#[test]
fn too_few_extents_are_told_and_the_job_goes_on_with_more(rt: HostRuntime) -> Result<(), Fail> {
    let alloc = rt.alloc();
    let mut rig = deal_of(alloc, 5)?;
    let short = Ok(Stepped::Short(Short { needed: 4, free: 3 }));
    let run = rig.run(alloc);
    assert_eq!(rt; (run.last, run.steps), (short, 3));
    assert_eq!(rt; (rig.step(alloc), rig.free()), (short, 3));

    rig.widen(alloc, 6)?;
    let run = rig.run(alloc);
    assert_eq!(rt; (run.last, run.steps), (Ok(Stepped::Ready), 5));
    assert_eq!(rt; rig.free(), 0);
    let (mut device, trie) = rig.into_parts(alloc)?;
    assert_eq!(rt;
        keys_of(alloc, &mut device, &trie, b"a")?.as_slice(),
        b"A".as_slice()
    );
    Ok(())
}

#[test]
fn a_damaged_bucket_is_told_and_the_job_goes_on_once_it_is_mended(
    rt: HostRuntime,
) -> Result<(), Fail> {
    let alloc = rt.alloc();
    let mut rig = deal_of(alloc, 10)?;
    let block = GEOMETRY.extent(1) + 7;
    let mut ones = Page::new(alloc)?;
    ones.fill_from(0, &[0xff; Page::LEN]);
    let before = rig.patch(alloc, block, &ones)?;
    let run = rig.run(alloc);
    assert_eq!(rt; (run.last, run.steps), (Err(JobFault::Damaged(block)), 1));
    assert_eq!(rt; rig.step(alloc), Err(JobFault::Damaged(block)));

    rig.patch(alloc, block, &before)?;
    let run = rig.run(alloc);
    assert_eq!(rt; (run.last, run.steps), (Ok(Stepped::Ready), 7));
    let (mut device, trie) = rig.into_parts(alloc)?;
    assert_eq!(rt;
        keys_of(alloc, &mut device, &trie, b"a")?.as_slice(),
        b"A".as_slice()
    );
    Ok(())
}

#[test]
fn a_step_is_made_again_behind_a_failing_call(rt: HostRuntime) -> Result<(), Fail> {
    let alloc = rt.alloc();
    let device = device_of(alloc, 10)?;
    // Each read of the two scans, and each call of the tables and of the group that are written.
    for call in 0..388u64 {
        let failing = vec![in alloc; call]?;
        let failing_device = device.crash(alloc, &[], 800, failing, None)?;
        let trie = flushed(alloc, &[0, 1])?;
        let mut rig = Rig::begin(alloc, failing_device, trie, NodeId::ROOT, 10)?.ok_or(
            "it begins",
        )?;
        let stopped = rig.run(alloc);
        assert_eq!(rt; stopped.last, Err(JobFault::Device), "call {call}");
        let run = rig.run(alloc);
        assert_eq!(rt; run.last, Ok(Stepped::Ready), "call {call}");
        assert_eq!(rt; run.steps.wrapping_add(stopped.steps), 8, "call {call}");
        let (mut device, trie) = rig.into_parts(alloc)?;
        assert_eq!(rt;
            keys_of(alloc, &mut device, &trie, b"a")?.as_slice(),
            b"A".as_slice()
        );
        assert_eq!(rt;
            keys_of(alloc, &mut device, &trie, b"b")?.as_slice(),
            b"b".as_slice()
        );
    }
    Ok(())
}

/// A byte of the filters of the table in an extent of the tests on groups, never 0.
fn filter_byte(number: u32, at: usize) -> u8 {
    ((number as usize).wrapping_mul(7).wrapping_add(at) % 251) as u8 + 1
}

/// Fills the filter blocks of these extents.
fn fill_filters(alloc: Global, device: &mut MemDevice, tables: &[u32]) -> Result<(), NoMemory> {
    for number in tables {
        let mut page = Page::new(alloc)?;
        for at in 0..Page::LEN {
            page.set(at, filter_byte(*number, at));
        }
        let block = GEOMETRY.extent(*number) + 64;
        if device.is_synced() && block < device.blocks() {
            device.patch(block, &page);
        }
    }
    Ok(())
}

/// Whether an extent holds the group of these tables: block by block, filter by filter, and then zeros.
fn is_group(device: &MemDevice, number: u32, tables: &[u32]) -> bool {
    for column in 0..64u64 {
        let block = GEOMETRY.extent(number) + column;
        if device.blocks() <= block {
            return false;
        }
        for (at, byte) in device.page(block).bytes().iter().enumerate() {
            let from = 64 * column as usize + at % 64;
            let wanted = match tables.get(at / 64) {
                Some(table) => byte_at(device, GEOMETRY.extent(*table) + 64, from),
                None => 0,
            };
            if *byte != wanted {
                return false;
            }
        }
    }
    true
}

/// A byte of a block; 0 where the device has none.
fn byte_at(device: &MemDevice, block: u64, at: usize) -> u8 {
    if device.blocks() <= block {
        return 0;
    }
    device.page(block).bytes().get(at).copied().unwrap_or(0)
}

/// So many numbers from one on.
fn range(alloc: Global, from: u32, count: u32) -> Result<Vec<u32>, NoMemory> {
    let mut list = Vec::new(alloc);
    for more in 0..count {
        list.push(from.wrapping_add(more))?;
    }
    Ok(list)
}

#[test]
fn a_group_that_is_not_full_is_written_anew_and_a_full_one_stays(
    rt: HostRuntime,
) -> Result<(), Fail> {
    let alloc = rt.alloc();
    let mut device = device_of(alloc, 138)?;
    let of_a = range(alloc, 2, 63)?;
    let of_b = range(alloc, 65, 64)?;
    fill_filters(alloc, &mut device, &of_a)?;
    fill_filters(alloc, &mut device, &of_b)?;
    let mut trie = flushed(alloc, &[130, 131, 0, 1])?;
    give(alloc, &mut trie, child_of(b"a"), &of_a, &[132])?;
    give(alloc, &mut trie, child_of(b"b"), &of_b, &[133])?;

    let mut rig = Rig::begin(alloc, device, trie, NodeId::ROOT, 138)?.ok_or("it begins")?;
    let run = rig.run(alloc);
    assert_eq!(rt; run.planned, Some((4, false)));
    assert_eq!(rt; run.last, Ok(Stepped::Ready));
    let (device, trie) = rig.into_parts(alloc)?;

    // Behind 63 tables all 64 are in one new group; behind 64 the new table has a group of its own.
    let pile = trie.pile(child_of(b"a"));
    let groups = trie.groups(child_of(b"a"));
    assert_eq!(rt; (pile.len(), groups.len()), (64, 1));
    assert!(rt;
        groups
            .iter()
            .all(|group| *group != 132 && is_group(&device, *group, pile))
    );
    let pile = trie.pile(child_of(b"b"));
    let groups = trie.groups(child_of(b"b"));
    assert_eq!(rt;
        (pile.len(), groups.len(), groups.first()),
        (65, 2, Some(&133))
    );
    let newest = pile.get(64..).unwrap_or(&[]);
    assert!(rt;
        groups
            .iter()
            .skip(1)
            .all(|group| is_group(&device, *group, newest))
    );
    Ok(())
}
