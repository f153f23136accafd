use lt_bloom::FilterPage;
use lt_container::{GroupFault, read_column, write_group};
use lt_device::{Device, MemDevice, Steady};
use lt_page::{Failed, NoMemory, Page};
use std::alloc::Global;
use std::test::Fail;

/// The group's extent is blocks 3 to 67.
const FIRST: u64 = 3;

const BLOCKS: u64 = 70;

/// Byte `at` of filter page `number`, never 0.
fn byte_of(number: usize, at: usize) -> u8 {
    (number.wrapping_mul(7).wrapping_add(at) % 251) as u8 + 1
}

/// So many filter pages with those bytes.
fn pages(alloc: Global, count: usize) -> Result<Vec<FilterPage>, NoMemory> {
    let mut filters = Vec::new(alloc);
    for number in 0..count {
        let mut page = Page::new(alloc)?;
        for at in 0..Page::LEN {
            page.set(at, byte_of(number, at));
        }
        filters.push(FilterPage::from_page(page))?;
    }
    Ok(filters)
}

/// Writes the group of 1 to 64 filter pages.
fn write<D: Device>(
    alloc: Global,
    device: &mut D,
    filters: &[FilterPage],
) -> Result<(), GroupFault> {
    if device.blocks() < FIRST + 65 || filters.is_empty() || filters.len() > 64 {
        return Err(GroupFault::NoMemory);
    }
    write_group(alloc, device, FIRST, filters)
}

/// Reads the block of a column, below 64.
fn read<D: Device>(device: &mut D, column: u8, page: &mut Page) -> Result<(), Failed> {
    if device.blocks() < FIRST + 65 || column > 63 {
        return Err(Failed);
    }
    read_column(device, FIRST, column, page)
}

#[test]
fn each_column_has_its_filter_of_each_page_and_then_zeros(rt: HostRuntime) -> Result<(), Fail> {
    for count in [1, 3, 64] {
        let mut device = Steady::new(rt.alloc(), BLOCKS)?;
        // A longer group stood there before.
        assert_eq!(rt;
            write(rt.alloc(), &mut device, &pages(rt.alloc(), 64)?),
            Ok(())
        );
        assert_eq!(rt;
            write(rt.alloc(), &mut device, &pages(rt.alloc(), count)?),
            Ok(())
        );
        let mut page = Page::new(rt.alloc())?;
        for column in [0, 5, 63u8] {
            let reads = device.reads();
            assert_eq!(rt; read(&mut device, column, &mut page), Ok(()));
            assert_eq!(rt; device.reads().wrapping_sub(reads), 1);
            for (at, byte) in page.bytes().iter().enumerate() {
                let number = at / 64;
                let expected = if number < count {
                    byte_of(number, 64 * usize::from(column) + at % 64)
                } else {
                    0
                };
                assert_eq!(rt;
                    *byte,
                    expected,
                    "{count} pages, column {column}, byte {at}"
                );
            }
        }
    }
    Ok(())
}

#[test]
fn a_group_takes_64_writes_and_no_sync(rt: HostRuntime) -> Result<(), Fail> {
    let mut device = MemDevice::new(rt.alloc(), BLOCKS, 200, Vec::new(rt.alloc()), None)?;
    assert_eq!(rt;
        write(rt.alloc(), &mut device, &pages(rt.alloc(), 2)?),
        Ok(())
    );
    assert_eq!(rt; device.calls(), 64);
    assert!(rt; !device.is_synced());
    Ok(())
}

#[test]
fn a_device_that_fails_is_told(rt: HostRuntime) -> Result<(), Fail> {
    for call in [0, 63] {
        let failing = vec![in rt.alloc(); call]?;
        let mut device = MemDevice::new(rt.alloc(), BLOCKS, 200, failing, None)?;
        let answer = write(rt.alloc(), &mut device, &pages(rt.alloc(), 2)?);
        assert_eq!(rt; answer, Err(GroupFault::Device), "call {call}");
        assert_eq!(rt; device.faults(), 1);
    }
    Ok(())
}
