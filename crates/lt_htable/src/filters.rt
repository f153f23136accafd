//! The filters of a table, made of its items or read.

ghost use Rattle.std.specs.Prelude.{◌≡◌, ◌+◌, ◌≤◌, IfOk, IsErrOf};
ghost use Rattle.lt_device.specs.Calls.{OnlyReads};
ghost use Rattle.lt_tables.specs.Filter.{filter_block};
ghost use Rattle.lt_htable.specs.Reading.{IsRead};

use super::extent::block_in;
use super::faults::BuildFault;
use lt_bloom::FilterPage;
use lt_bucket::Item;
use lt_device::Device;
use lt_page::{NoMemory, Page};
use std::alloc::Global;

/// The filters of a table of these items.
pub fn filters_of(alloc: Global, items: &[Item]) -> Result<FilterPage, NoMemory>
    ensures { IfOk result (λ filters. filters ≡ filter_block items.now) }
{
    let mut filters = FilterPage::new(alloc)?;
    for item in items {
        filters.add(item.parts().column, item.parts());
    }
    let len = filters.page().bytes().len();
    prove!(len == Page::LEN);
    Ok(filters)
}

/// The filters of the table whose extent begins at block `first`: one read, of block 64 of the extent.
pub fn read_filters<D: Device>(
    alloc: Global,
    device: &mut D,
    first: u64,
) -> Result<FilterPage, BuildFault>
    requires { first + 65 ≤ D.blocks device.old }
    ensures filters { IfOk result (IsRead (D.state device.old).shown (first + 64)) }

    // A device that fails is its only fault beside memory.
    ensures calls { OnlyReads D.Device 1 (IsErrOf result BuildFault.Device) device.old device.new }
{
    let mut page = Page::new(alloc)?;
    device.read(block_in(device, first, 64), &mut page)?;
    Ok(FilterPage::from_page(page))
}
