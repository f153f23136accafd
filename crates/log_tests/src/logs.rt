ghost use Rattle.std.specs.Prelude.{◌≡◌, ◌≤◌, [], IfOk, OnOk};
ghost use Rattle.lt_format.specs.Layout.{extent_block};

use lt_bucket::Item;
use lt_device::{Device, MemDevice, Pick, Steady};
use lt_format::Geometry;
use lt_item::{ItemView, Kind};
use lt_layout::OpenFault;
use lt_page::{Failed, NoMemory, Page};
use lt_redo::{GroupFull, Log};
use std::alloc::Global;
use std::test::Fail;

/// Two slots a log area: the slots of area 0 begin at blocks 868 and 870, those of area 1 at 872 and 874.
const TWO: Geometry = Geometry {
    levels: 2,
    slots: 2,
};

const BLOCKS: u64 = 876;

/// Opens the log of area 0. A device that is too small has failed.
fn open<D: Device>(alloc: Global, device: &mut D) -> Result<(Log, Vec<Item>), OpenFault>
    ensures within { IfOk result (λ opened. extent_block opened.0.geometry 0 ≤ D.blocks device.new) }
    ensures empty { IfOk result (λ opened. opened.0.pending ≡ []) }
{
    if device.blocks() < BLOCKS {
        return Err(OpenFault::Device);
    }
    Log::open(alloc, device, &TWO, 0, 0)
}

/// Appends a put with this key, of one byte.
fn append(log: &mut Log, key: &[u8]) -> Result<(), GroupFull>
    ensures { log.new.geometry ≡ log.old.geometry }
{
    let item = ItemView {
        kind: Kind::Put,
        key,
        value: b"v",
    };
    if !item.is_valid() {
        return Err(GroupFull);
    }
    log.append(&item)
}

fn commit<D: Device>(log: &mut Log, device: &mut D) -> Result<(), Failed>
    requires { extent_block log.old.geometry 0 ≤ D.blocks device.old }
    ensures geometry { OnOk result (log.new.geometry ≡ log.old.geometry) }
    ensures size { D.blocks device.new ≡ D.blocks device.old }
{
    if log.slots_left() == 0 {
        return Err(Failed);
    }
    log.commit(device)
}

/// Opens the log, and commits the items a and b as one group and the item c as another. Answers whether
/// no call failed.
fn write_two_groups<D: Device>(alloc: Global, device: &mut D) -> bool {
    let Ok((mut log, _)) = open(alloc, device) else {
        return false;
    };
    let full = append(&mut log, b"a").is_err() || append(&mut log, b"b").is_err();
    if full || commit(&mut log, device).is_err() {
        return false;
    }
    append(&mut log, b"c").is_ok() && commit(&mut log, device).is_ok()
}

/// The keys of the items of the log.
fn keys<D: Device>(alloc: Global, device: &mut D) -> Result<Vec<u8>, OpenFault> {
    let (_, items) = open(alloc, device)?;
    let mut keys = Vec::new(alloc);
    for item in &items {
        if keys.extend_from_slice(item.view().key).is_err() {
            return Err(OpenFault::NoMemory);
        }
    }
    Ok(keys)
}

/// Fills some blocks with a byte each, and opens the log. Answers how many slots are left.
fn opened_over<D: Device>(
    alloc: Global,
    device: &mut D,
    fills: &[(u64, u8)],
) -> Result<u16, OpenFault> {
    let mut page = Page::new(alloc)?;
    for (block, byte) in fills {
        page.fill_from(0, &[*byte; Page::LEN]);
        if *block < device.blocks() {
            device.write(*block, &page)?;
        }
    }
    Ok(open(alloc, device)?.0.slots_left())
}

/// Fills both gates of the other area with ones, and clears and takes that area. Answers how many slots
/// are left before and after.
fn moved<D: Device>(alloc: Global, device: &mut D) -> Result<[u16; 2], OpenFault> {
    opened_over(alloc, device, &[(872, 1), (874, 1)])?;
    if !write_two_groups(alloc, device) {
        return Err(OpenFault::Device);
    }
    let (mut log, _) = open(alloc, device)?;
    let before = log.slots_left();
    log.clear_other(device)?;
    log.turn(3);
    Ok([before, log.slots_left()])
}

/// The first bytes of a block.
fn front<D: Device>(alloc: Global, device: &mut D, block: u64) -> Result<[u8; 11], OpenFault> {
    let mut page = Page::new(alloc)?;
    if block < device.blocks() {
        device.read(block, &mut page)?;
    }
    let mut front = [0; 11];
    front.copy_from_slice(&page.bytes()[..11]);
    Ok(front)
}

#[test]
fn a_committed_group_stands_behind_an_open_gate(rt: HostRuntime) -> Result<(), Fail> {
    let alloc = rt.alloc();
    let mut device = Steady::new(alloc, BLOCKS)?;
    assert!(rt; write_two_groups(alloc, &mut device));
    assert_eq!(rt;
        front(alloc, &mut device, 868)?,
        [1, 0, 0, 0, 0, 0, 0, 0, 0, 0, 0]
    );
    assert_eq!(rt;
        front(alloc, &mut device, 869)?,
        [0, 2, 0, 12, 1, 1, 0, 1, b'a', b'v', 1]
    );
    assert_eq!(rt;
        front(alloc, &mut device, 870)?,
        [1, 0, 0, 0, 0, 0, 0, 0, 0, 0, 0]
    );
    assert_eq!(rt;
        front(alloc, &mut device, 871)?,
        [0, 1, 0, 6, 1, 1, 0, 1, b'c', b'v', 0]
    );
    Ok(())
}

#[test]
fn a_group_has_room_for_4092_bytes(rt: HostRuntime) -> Result<(), Fail> {
    let alloc = rt.alloc();
    let (mut log, _) = open(alloc, &mut Steady::new(alloc, BLOCKS)?)?;
    let value = vec![in alloc; b'v'; 3000]?;
    for (key, len, answer) in [
        (b"a", 3000, Ok(())),
        (b"b", 1083, Err(GroupFull)),
        (b"c", 1082, Ok(())),
    ] {
        assert!(rt; len <= value.len());
        let item = ItemView {
            kind: Kind::Put,
            key,
            value: &value[..len],
        };
        assert!(rt; item.is_valid());
        assert_eq!(rt; log.append(&item), answer, "a value of {len} bytes");
    }
    assert_eq!(rt; [log.pending(), log.room()], [2, 0]);
    Ok(())
}

#[test]
fn the_log_goes_to_the_other_area_once_it_is_cleared(rt: HostRuntime) -> Result<(), Fail> {
    let alloc = rt.alloc();
    let mut device = Steady::new(alloc, BLOCKS)?;
    assert_eq!(rt; moved(alloc, &mut device)?, [0, 2]);
    for gate in [872, 874] {
        assert_eq!(rt; front(alloc, &mut device, gate)?, [0; 11]);
    }
    Ok(())
}

#[test]
fn a_crash_leaves_whole_groups(rt: HostRuntime) -> Result<(), Fail> {
    let alloc = rt.alloc();
    // Opening reads two gates; a commit writes the content, syncs, writes the gate, and syncs.
    let rows = [
        (2, "", ""),
        (3, "", ""),
        (4, "", "ab"),
        (5, "", "ab"),
        (6, "ab", "ab"),
        (7, "ab", "ab"),
        (8, "ab", "abc"),
        (9, "ab", "abc"),
        (10, "abc", "abc"),
    ];
    for (stop, stable, written) in rows {
        let mut device = MemDevice::new(alloc, BLOCKS, 99, Vec::new(alloc), Some(stop))?;
        assert_eq!(rt; write_two_groups(alloc, &mut device), stop == 10);
        for (pick, want) in [
            (Pick::Stable, stable),
            (Pick::Written, written),
            (Pick::Filled(1), written),
        ] {
            let mut left = device.crash(alloc, &[pick], 99, Vec::new(alloc), None)?;
            let keys = keys(alloc, &mut left)?;
            assert_eq!(rt;
                keys.as_slice(),
                want.as_bytes(),
                "stopped at {stop}, {pick:?}"
            );
        }
    }
    Ok(())
}

#[test]
fn damage_is_told_by_its_block(rt: HostRuntime) -> Result<(), Fail> {
    let alloc = rt.alloc();
    let rows: [(&[(u64, u8)], Result<u16, OpenFault>); 6] = [
        (&[], Ok(2)),
        (&[(868, 0xff)], Ok(2)),
        (&[(868, 0xff), (870, 1)], Err(OpenFault::Damaged(870))),
        (&[(870, 1)], Err(OpenFault::Damaged(870))),
        (&[(868, 1)], Err(OpenFault::Damaged(869))),
        (&[(868, 1), (869, 1)], Err(OpenFault::Damaged(869))),
    ];
    for (fills, want) in &rows {
        let mut device = Steady::new(alloc, BLOCKS)?;
        assert_eq!(rt; opened_over(alloc, &mut device, fills), *want);
    }
    Ok(())
}
