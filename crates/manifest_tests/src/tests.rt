ghost use Rattle.std.specs.Prelude.{◌≡◌, ◌&&◌, IfOk};
ghost use Rattle.std.specs.List.{list_all};
ghost use Rattle.lt_format.specs.Trie.{all_below};
ghost use Rattle.lt_format.specs.Changes.{new_extents};
ghost use Rattle.lt_format.specs.Snapshot.{extents_stand, log_moves, may_commit};
ghost use Rattle.lt_node.specs.Changing.{change_of};

use lt_device::{Device, MemDevice, Pick, Steady};
use lt_format::{Geometry, Header, NodeId};
use lt_layout::OpenFault;
use lt_manifest::Manifest;
use lt_node::{Change, ChildChange, Children, CommitFault, Numbers};
use lt_page::{Failed, Page};
use std::alloc::{AllocError, Global};
use std::test::Fail;

/// The last level is level 1.
const TWO: Geometry = Geometry {
    levels: 2,
    slots: 1,
};

/// Whether a device of so many blocks has room for so many extents.
fn has_room(blocks: u64, extents: u32) -> bool
    ensures { result ≡ extents_stand TWO blocks extents }
{
    1 <= extents && extents <= 65_536 && TWO.needed(extents) <= blocks
}

/// Writes a fresh manifest. A device that is too small has failed.
fn format<D: Device>(alloc: Global, device: &mut D, extents: u32) -> Result<(), CommitFault> {
    if !has_room(device.blocks(), extents) {
        return Err(CommitFault::Device);
    }
    Manifest::format(alloc, device, &TWO, extents)
}

fn open<D: Device>(alloc: Global, device: &mut D) -> Result<Manifest, OpenFault>
    ensures { IfOk result (λ manifest. manifest.geometry ≡ TWO) }
{
    if device.blocks() < 872 {
        return Err(OpenFault::Device);
    }
    Manifest::open(alloc, device, &TWO)
}

fn all_below(limit: u32, list: &[u32]) -> bool
    ensures { result ≡ all_below limit list.now }
{
    list.iter().all(|number| *number < limit)
}

fn children_below(limit: u32, children: &[ChildChange]) -> bool
    ensures { result ≡ list_all (λ c. all_below limit c.tables && all_below limit c.groups) children.now }
{
    children.iter().all(|child| all_below(limit, child.tables.list())
        && all_below(limit, child.groups.list()))
}

/// Whether the new extents of a change are below a limit.
fn new_below(limit: u32, change: &Change) -> bool
    ensures { result ≡ all_below limit (new_extents (change_of change.now)) }
{
    match change {
        Change::Flush { tables } => all_below(limit, tables.list()),
        Change::Deal { children, .. } => children_below(limit, children.list()),
        Change::Rewrite { tables, groups, .. } => {
            all_below(limit, tables.list()) && all_below(limit, groups.list())
        }
    }
}

fn log_moves(change: &Change, old: &Header, new: &Header) -> bool
    ensures { result ≡ log_moves (change_of change.now) old.now new.now }
{
    match change {
        Change::Flush { .. } => {
            new.log_area as u16 + old.log_area as u16 == 1 && old.writes <= new.writes
        }
        Change::Deal { .. } => new.log_area == old.log_area && new.writes == old.writes,
        Change::Rewrite { .. } => new.log_area == old.log_area && new.writes == old.writes,
    }
}

fn may_commit(manifest: &Manifest, change: &Change, header: &Header) -> bool
    ensures { result ≡ may_commit manifest.now.geometry.levels manifest.now.manifest (change_of change.now) header.now }
{
    let old = manifest.header();
    manifest.trie().fits(change)
        && new_below(old.extents, change)
        && header.extents == old.extents
        && log_moves(change, &old, header)
}

/// Commits a change. One that may not be committed has failed.
fn commit<D: Device>(
    alloc: Global,
    device: &mut D,
    manifest: &mut Manifest,
    change: &Change,
    header: &Header,
) -> Result<(), CommitFault>
    requires { manifest.old.geometry ≡ TWO }
    ensures { manifest.new.geometry ≡ manifest.old.geometry }
{
    let extents = manifest.header().extents;
    if !has_room(device.blocks(), extents) || !may_commit(manifest, change, header) {
        return Err(CommitFault::Device);
    }
    manifest.commit(alloc, device, change, header)
}

/// Commits a flush of these tables at this number of writes.
fn flush<D: Device>(
    alloc: Global,
    device: &mut D,
    manifest: &mut Manifest,
    tables: Vec<u32>,
    writes: u64,
) -> Result<(), CommitFault>
    requires { manifest.old.geometry ≡ TWO }
    ensures { manifest.new.geometry ≡ manifest.old.geometry }
{
    let old = manifest.header();
    let header = Header {
        log_area: if old.log_area == 0 { 1 } else { 0 },
        extents: old.extents,
        writes,
    };
    let tables = Numbers::of(tables);
    commit(alloc, device, manifest, &Change::Flush { tables }, &header)
}

/// Whether a block begins with these bytes.
fn begins<D: Device>(
    alloc: Global,
    device: &mut D,
    block: u64,
    bytes: &[u8],
) -> Result<bool, OpenFault> {
    let mut page = Page::new(alloc)?;
    if block < device.blocks() {
        device.read(block, &mut page)?;
    }
    Ok(page.bytes().starts_with(bytes))
}

/// Puts bytes into a block.
fn patch<D: Device>(
    alloc: Global,
    device: &mut D,
    block: u64,
    at: usize,
    bytes: &[u8],
) -> Result<(), OpenFault> {
    let mut page = Page::new(alloc)?;
    if block < device.blocks() && bytes.len() <= 64 && at <= 4096 - bytes.len() {
        device.read(block, &mut page)?;
        page.fill_from(at, bytes);
        device.write(block, &page)?;
    }
    Ok(())
}

/// The root's pile as the device names it.
fn root<D: Device>(alloc: Global, device: &mut D) -> Result<Vec<u32>, OpenFault> {
    let manifest = open(alloc, device)?;
    match Vec::from_slice(alloc, manifest.trie().pile(NodeId::ROOT)) {
        Ok(pile) => Ok(pile),
        Err(_) => Err(OpenFault::NoMemory),
    }
}

#[test]
fn a_fresh_snapshot_is_spelled_in_40_bytes(rt: HostRuntime) -> Result<(), Fail> {
    let alloc = rt.alloc();
    let mut device = Steady::new(alloc, 937)?;
    assert_eq!(rt; format(alloc, &mut device, 1), Ok(()));
    let mut want = [0; 64];
    want[0] = 1;
    want[7] = 1;
    want[23] = 40;
    assert!(rt; begins(alloc, &mut device, 2, &want)?);
    assert!(rt; begins(alloc, &mut device, 1, &[0; 64])?);
    assert_eq!(rt; root(alloc, &mut device)?.len(), 0);
    Ok(())
}

#[test]
fn the_first_field_that_does_not_stand_decides_the_damage(rt: HostRuntime) -> Result<(), Fail> {
    let alloc = rt.alloc();
    let header = [
        1, 0, 0, 0, 0, 0, 0, 1, 0, 0, 0, 0, 0, 0, 0, 1, 0, 0, 0, 1, 0, 0, 0, 0x3b, 0, 0, 0, 0, 0,
        0, 0, 0, 0, 0, 0, 0, 0, 0, 0, 0,
    ];
    let node = [0, 0, 0, 0, 0, 0, 0, 0, 0, 0, 1, 0, 0, 0, 0, 0, 0, 0];
    // The last byte of the extent's number.
    for (number, want) in [(0, Ok(1)), (1, Err(OpenFault::Damaged(2)))] {
        let mut device = Steady::new(alloc, 937)?;
        assert_eq!(rt; format(alloc, &mut device, 1), Ok(()));
        patch(alloc, &mut device, 2, 0, &header)?;
        patch(alloc, &mut device, 2, 40, &node)?;
        patch(alloc, &mut device, 2, 58, &[number])?;
        let found = root(alloc, &mut device).map(|pile| pile.len());
        assert_eq!(rt; found, want, "extent {number} of one");
    }
    Ok(())
}

#[test]
fn two_flushes_are_committed_on_one_manifest(rt: HostRuntime) -> Result<(), Fail> {
    let alloc = rt.alloc();
    let mut device = Steady::new(alloc, 1067)?;
    assert_eq!(rt; format(alloc, &mut device, 3), Ok(()));
    let mut manifest = open(alloc, &mut device)?;
    let first = vec![in alloc; 2]?;
    assert_eq!(rt; flush(alloc, &mut device, &mut manifest, first, 5), Ok(()));
    let second = vec![in alloc; 0, 1]?;
    assert_eq!(rt; flush(alloc, &mut device, &mut manifest, second, 9), Ok(()));
    let want = Header {
        log_area: 0,
        extents: 3,
        writes: 9,
    };
    assert_eq!(rt; manifest.header(), want);
    assert_eq!(rt; open(alloc, &mut device)?.header(), want);
    assert_eq!(rt; root(alloc, &mut device)?.as_slice(), [2, 0, 1].as_slice());
    Ok(())
}

/// Deals the root's oldest table to two children, each with a table and a group.
fn deal<D: Device>(
    alloc: Global,
    device: &mut D,
    manifest: &mut Manifest,
) -> Result<(), CommitFault>
    requires { manifest.old.geometry ≡ TWO }
    ensures { manifest.new.geometry ≡ manifest.old.geometry }
{
    let Ok(children) = two_children(alloc) else {
        return Err(CommitFault::NoMemory);
    };
    let change = Change::Deal {
        node: NodeId::ROOT,
        dropped: 1,
        children,
    };
    let header = manifest.header();
    commit(alloc, device, manifest, &change, &header)
}

fn two_children(alloc: Global) -> Result<Children, AllocError> {
    let mut children = Vec::new(alloc);
    for (number, table, group) in [(3, 2, 3), (5, 4, 5)] {
        let child = ChildChange {
            node: NodeId { level: 1, number },
            tables: Numbers::of(vec![in alloc; table]?),
            kept_groups: 0,
            groups: Numbers::of(vec![in alloc; group]?),
        };
        if children.push(child).is_err() {
            return Err(AllocError);
        }
    }
    Ok(Children::of(children))
}

/// Rewrites the child with number 3 as two tables and a group.
fn rewrite<D: Device>(
    alloc: Global,
    device: &mut D,
    manifest: &mut Manifest,
) -> Result<(), CommitFault>
    requires { manifest.old.geometry ≡ TWO }
    ensures { manifest.new.geometry ≡ manifest.old.geometry }
{
    let (Ok(tables), Ok(groups)) = (vec![in alloc; 6, 7], vec![in alloc; 8]) else {
        return Err(CommitFault::NoMemory);
    };
    let change = Change::Rewrite {
        node: NodeId {
            level: 1,
            number: 3,
        },
        tables: Numbers::of(tables),
        groups: Numbers::of(groups),
    };
    let header = manifest.header();
    commit(alloc, device, manifest, &change, &header)
}

#[test]
fn a_deal_and_a_rewriting_are_read_again(rt: HostRuntime) -> Result<(), Fail> {
    let alloc = rt.alloc();
    let mut device = Steady::new(alloc, 1457)?;
    assert_eq!(rt; format(alloc, &mut device, 9), Ok(()));
    let mut manifest = open(alloc, &mut device)?;
    let tables = vec![in alloc; 0, 1]?;
    assert_eq!(rt; flush(alloc, &mut device, &mut manifest, tables, 5), Ok(()));
    assert_eq!(rt; deal(alloc, &mut device, &mut manifest), Ok(()));
    assert_eq!(rt;
        spelled(alloc, &mut device)?.as_slice(),
        [0, 0, 0, 1, 1, 1, 3, 0, 1, 2, 3, 1, 5, 0, 1, 4, 5].as_slice()
    );
    assert_eq!(rt; rewrite(alloc, &mut device, &mut manifest), Ok(()));
    assert_eq!(rt;
        spelled(alloc, &mut device)?.as_slice(),
        [0, 0, 0, 1, 1, 1, 3, 2, 2, 6, 7, 8, 1, 5, 0, 1, 4, 5].as_slice()
    );
    Ok(())
}

/// Of each node that the device names: its level, its number, its base, how many tables it has, its
/// tables and its groups.
fn spelled<D: Device>(alloc: Global, device: &mut D) -> Result<Vec<u32>, OpenFault> {
    let manifest = open(alloc, device)?;
    let mut all = Vec::new(alloc);
    for entry in manifest.trie().nodes() {
        let NodeId { level, number } = entry.node();
        let tables = entry.tables();
        let front = [
            level as u32,
            number as u32,
            entry.base(),
            tables.len().min(99) as u32,
        ];
        let full = all.extend_from_slice(&front).is_err()
            || all.extend_from_slice(tables).is_err()
            || all.extend_from_slice(entry.groups()).is_err();
        if full {
            return Err(OpenFault::NoMemory);
        }
    }
    Ok(all)
}

#[test]
fn damage_in_a_later_block_is_told_by_that_block(rt: HostRuntime) -> Result<(), Fail> {
    let alloc = rt.alloc();
    // A root with 1,012 tables takes 4,103 bytes: number 1,010 begins in the last byte of block 2.
    let mut device = Steady::new(alloc, 66_652)?;
    assert_eq!(rt; format(alloc, &mut device, 1012), Ok(()));
    let mut manifest = open(alloc, &mut device)?;
    let one = vec![in alloc; 1011]?;
    assert_eq!(rt; flush(alloc, &mut device, &mut manifest, one, 1), Ok(()));
    let mut others = Vec::new(alloc);
    for number in 0..1011 {
        others.push(number)?;
    }
    assert_eq!(rt; flush(alloc, &mut device, &mut manifest, others, 2), Ok(()));
    assert_eq!(rt; root(alloc, &mut device)?.len(), 1012);
    // The highest byte of number 1,011, and then that of number 1,010.
    patch(alloc, &mut device, 3, 3, &[1])?;
    assert_eq!(rt; root(alloc, &mut device).err(), Some(OpenFault::Damaged(3)));
    patch(alloc, &mut device, 2, 4095, &[1])?;
    assert_eq!(rt; root(alloc, &mut device).err(), Some(OpenFault::Damaged(2)));
    Ok(())
}

/// Opens the manifest and commits a flush of extent 1. Answers whether no call failed.
fn open_and_flush<D: Device>(alloc: Global, device: &mut D) -> bool {
    let Ok(mut manifest) = open(alloc, device) else {
        return false;
    };
    let Ok(tables) = vec![in alloc; 1] else {
        return false;
    };
    flush(alloc, device, &mut manifest, tables, 7).is_ok()
}

fn sync<D: Device>(device: &mut D) -> Result<(), Failed> {
    device.sync()
}

#[test]
fn a_crash_leaves_the_old_or_the_new_manifest(rt: HostRuntime) -> Result<(), Fail> {
    let alloc = rt.alloc();
    let mut fresh = MemDevice::new(alloc, 1002, 99, Vec::new(alloc), None)?;
    assert_eq!(rt; format(alloc, &mut fresh, 2), Ok(()));
    sync(&mut fresh)?;
    // Opening reads two blocks; a commit writes a block and 64 gates, syncs, writes the selector, and
    // syncs.
    for stop in 2..71 {
        let mut device = fresh.crash(alloc, &[], 99, Vec::new(alloc), Some(stop))?;
        assert_eq!(rt;
            open_and_flush(alloc, &mut device),
            stop == 70,
            "stopped at {stop}"
        );
        let picks = [
            (Pick::Stable, stop == 70),
            (Pick::Written, stop >= 68),
            (Pick::Filled(1), stop >= 68),
        ];
        for (pick, is_new) in picks {
            let mut picks = Vec::new(alloc);
            for _ in 0..70 {
                picks.push(pick)?;
            }
            let mut left = device.crash(alloc, &picks, 99, Vec::new(alloc), None)?;
            let pile = root(alloc, &mut left)?;
            assert_eq!(rt; pile.len() == 1, is_new, "stopped at {stop}, {pick:?}");
        }
    }
    Ok(())
}
