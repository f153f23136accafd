ghost use Rattle.std.specs.Prelude.{◌≡◌, ◌≤◌, IfOk};
ghost use Rattle.lt_tables.specs.Table.{newest};

use lt_balance::{are_entries, place};
use lt_bloom::FilterPage;
use lt_bucket::Item;
use lt_device::{Device, MemDevice, Steady};
use lt_htable::{BuildFault, ScanFault, build, entries_of, look, read_filters, scan};
use lt_item::{ItemView, Kind, cost, parts_of};
use lt_mem::MemTable;
use lt_page::{Failed, NoMemory, Page};
use std::alloc::Global;
use std::test::Fail;

/// The table's extent is blocks 3 to 67.
const FIRST: u64 = 3;

const BLOCKS: u64 = 70;

/// Keys of one byte. The home column of c, g and O is 5, that of N is 24, and that of byte 131 is 0. In
/// rank order O is the last of column 5, whose bucket has room for two values of 1,500 bytes: O is sent
/// to column 1, the first of those with most room.
const KEYS: [u8; 5] = [b'c', b'g', b'O', b'N', 131];

/// Puts an item in, if it is valid and there is room.
fn put(table: &mut MemTable, key: &[u8], value: &[u8]) {
    let item = ItemView {
        kind: Kind::Put,
        key,
        value,
    };
    if !item.is_valid() {
        return;
    }
    if table.bytes() <= 204_092 - u32::from(cost(&item)) {
        table.put(key, value);
    }
}

/// An item for each of these keys of one byte, in rank order. Its value is 1,500 times the key.
fn items_of(alloc: Global, keys: &[u8]) -> Result<Vec<Item>, NoMemory>
    ensures { IfOk result (λ items. newest items.items ≡ items.items) }
{
    let mut table = MemTable::new(alloc)?;
    for key in keys {
        let value = vec![in alloc; *key; 1500]?;
        put(&mut table, &[*key], &value);
    }
    table.batch(alloc)
}

/// Builds the table of these items. A list that has no table, and a device that is too small, fail.
fn build_items<D: Device>(
    alloc: Global,
    device: &mut D,
    items: &[Item],
) -> Result<FilterPage, BuildFault>
    requires { newest items.now ≡ items.now }
{
    let entries = entries_of(alloc, items)?;
    if items.is_empty() || !are_entries(&entries) {
        return Err(BuildFault::Device);
    }
    if place(alloc, &entries)?.is_none() || device.blocks() < BLOCKS {
        return Err(BuildFault::Device);
    }
    build(alloc, device, FIRST, items)
}

/// Builds the table of these keys.
fn build_keys<D: Device>(
    alloc: Global,
    device: &mut D,
    keys: &[u8],
) -> Result<FilterPage, BuildFault> {
    let items = items_of(alloc, keys)?;
    build_items(alloc, device, &items)
}

/// The first byte of a key's value in the table.
fn find<D: Device>(alloc: Global, device: &mut D, key: &[u8]) -> Result<Option<u8>, ScanFault> {
    let mut page = Page::new(alloc)?;
    if device.blocks() < BLOCKS {
        return Err(ScanFault::Device);
    }
    let found = look(device, FIRST, key, &parts_of(key), &mut page)?;
    Ok(found.and_then(|item| item.value.first().copied()))
}

/// The keys of the table's items, one behind the other.
fn keys<D: Device>(alloc: Global, device: &mut D) -> Result<Vec<u8>, ScanFault> {
    if device.blocks() < BLOCKS {
        return Err(ScanFault::Device);
    }
    let items = scan(alloc, device, FIRST)?;
    let mut keys = Vec::new(alloc);
    for item in &items {
        if keys.extend_from_slice(item.view().key).is_err() {
            return Err(ScanFault::NoMemory);
        }
    }
    Ok(keys)
}

/// Whether the table's filters cover a key in its home column.
fn covers<D: Device>(alloc: Global, device: &mut D, key: &[u8]) -> Result<bool, BuildFault> {
    if device.blocks() < BLOCKS {
        return Err(BuildFault::Device);
    }
    let parts = parts_of(key);
    Ok(read_filters(alloc, device, FIRST)?.covers(parts.column, &parts))
}

/// Fills a block with ones.
fn damage<D: Device>(alloc: Global, device: &mut D, block: u64) -> Result<(), BuildFault> {
    let mut page = Page::new(alloc)?;
    page.fill_from(0, &[0xff; Page::LEN]);
    if block < device.blocks() {
        device.write(block, &page)?;
    }
    Ok(())
}

#[test]
fn a_key_is_found_in_its_home_bucket_or_in_the_target(rt: HostRuntime) -> Result<(), Fail> {
    let alloc = rt.alloc();
    let mut device = Steady::new(alloc, BLOCKS)?;
    build_keys(alloc, &mut device, &KEYS)?;

    // The suffix of "|" is below O's, and that of "ym" above it.
    let rows: [(&[u8], Option<u8>, u64); 8] = [
        (b"c", Some(b'c'), 1),
        (b"g", Some(b'g'), 1),
        (b"O", Some(b'O'), 2),
        (b"N", Some(b'N'), 1),
        (&[131], Some(131), 1),
        (b"|", None, 1),
        (b"ym", None, 2),
        (b"a", None, 1),
    ];
    for (key, value, reads) in &rows {
        let before = device.reads();
        assert_eq!(rt; find(alloc, &mut device, key)?, *value, "of {key:?}");
        assert_eq!(rt; device.reads().wrapping_sub(before), *reads, "of {key:?}");
    }
    Ok(())
}

#[test]
fn a_scan_gives_the_items_bucket_after_bucket(rt: HostRuntime) -> Result<(), Fail> {
    let alloc = rt.alloc();
    let mut device = Steady::new(alloc, BLOCKS)?;
    build_keys(alloc, &mut device, &KEYS)?;
    let keys = keys(alloc, &mut device)?;
    assert_eq!(rt; keys.as_slice(), [131, b'O', b'c', b'g', b'N'].as_slice());
    assert_eq!(rt; device.reads(), 64);
    Ok(())
}

#[test]
fn the_filters_cover_each_key_in_its_home_column(rt: HostRuntime) -> Result<(), Fail> {
    let alloc = rt.alloc();
    let mut device = Steady::new(alloc, BLOCKS)?;
    build_keys(alloc, &mut device, &KEYS)?;
    for key in KEYS {
        assert!(rt; covers(alloc, &mut device, &[key])?, "of {key}");
    }
    assert!(rt; !covers(alloc, &mut device, b"a")?);
    Ok(())
}

#[test]
fn damage_is_told_by_its_block(rt: HostRuntime) -> Result<(), Fail> {
    let alloc = rt.alloc();
    let of = |block| Err(ScanFault::Damaged(block));
    let rows = [
        (FIRST + 5, of(FIRST + 5), of(FIRST + 5)),
        (FIRST + 1, Ok(Some(b'c')), of(FIRST + 1)),
        (FIRST + 64, Ok(Some(b'c')), Ok(Some(b'O'))),
    ];
    for (block, of_c, of_o) in rows {
        let mut device = Steady::new(alloc, BLOCKS)?;
        build_keys(alloc, &mut device, &KEYS)?;
        damage(alloc, &mut device, block)?;
        assert_eq!(rt; find(alloc, &mut device, b"c"), of_c, "block {block}");
        assert_eq!(rt; find(alloc, &mut device, b"O"), of_o, "block {block}");
    }
    Ok(())
}

#[test]
fn a_scan_tells_the_first_damaged_block(rt: HostRuntime) -> Result<(), Fail> {
    let alloc = rt.alloc();
    for block in [FIRST, FIRST + 63] {
        let mut device = Steady::new(alloc, BLOCKS)?;
        build_keys(alloc, &mut device, &KEYS)?;
        damage(alloc, &mut device, block)?;
        assert_eq!(rt;
            keys(alloc, &mut device).err(),
            Some(ScanFault::Damaged(block))
        );
    }
    Ok(())
}

#[test]
fn a_failing_call_is_told(rt: HostRuntime) -> Result<(), Fail> {
    let alloc = rt.alloc();
    // A table takes 65 writes.
    for (stop, built) in [(0, false), (64, false), (65, true)] {
        let mut device = MemDevice::new(alloc, BLOCKS, 65, Vec::new(alloc), Some(stop))?;
        let fault = build_keys(alloc, &mut device, &KEYS).err();
        assert_eq!(rt;
            fault,
            if built {
                None
            } else {
                Some(BuildFault::Device)
            }
        );
        assert_eq!(rt; find(alloc, &mut device, b"c"), Err(ScanFault::Device));
        assert_eq!(rt; keys(alloc, &mut device).err(), Some(ScanFault::Device));
        assert_eq!(rt;
            covers(alloc, &mut device, b"c").err(),
            Some(BuildFault::Device)
        );
    }
    Ok(())
}
