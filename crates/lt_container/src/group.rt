//! Writing a group.

ghost use Rattle.std.specs.Prelude.{◌≡◌, ◌+◌, ◌<◌, ◌≤◌, ℕ, OnOk, IsErr, IsErrOf, length};
ghost use Rattle.std.specs.Option.{ForSome};
ghost use Rattle.lt_terms.specs.Bytes.{IsBlock};
ghost use Rattle.lt_device.specs.Calls.{FillsOnly};
ghost use Rattle.lt_tables.specs.Filter.{IsGroup, filter_in, group_block};
ghost use Rattle.lt_tables.specs.Table.{blocks_from};
ghost use Rattle.lt_container.specs.Columns.{InColumns, HasColumns};

use super::columns::block_of;
use super::fault::GroupFault;
use lt_bloom::FilterPage;
use lt_device::Device;
use lt_page::{Failed, Page};
use std::alloc::Global;

/// Writes the group of 1 to 64 filter pages to the extent that begins at block `first`: block c gets
/// filter c of each page, in their order, and then zeros. It does not sync, and leaves block 64 of the
/// extent as it is.
pub fn write_group<D: Device>(
    alloc: Global,
    device: &mut D,
    first: u64,
    filters: &[FilterPage],
) -> Result<(), GroupFault>
    requires within { first + 65 ≤ D.blocks device.old }
    requires some { 1 ≤ length filters.now }
    requires few { length filters.now ≤ 64 }
    ensures grouped { OnOk result (ForSome (D.state device.new).shown
        (λ image. IsGroup filters.now (blocks_from image first))) }

    // Whatever it answers, it writes no other block and syncs nothing.
    ensures fills { FillsOnly D.Device (InColumns first) (IsErrOf result GroupFault.Device)
        device.old device.new }
    ensures no_memory { IsErrOf result GroupFault.NoMemory → device.new ≡ device.old }
{
    let mut page = Page::new(alloc)?;
    write_columns(device, first, filters, &mut page)?;
    Ok(())
}

/// Writes the 64 blocks of a group, one after another.
fn write_columns<D: Device>(
    device: &mut D,
    first: u64,
    filters: &[FilterPage],
    page: &mut Page,
) -> Result<(), Failed>
    requires within { first + 65 ≤ D.blocks device.old }
    requires few { length filters.now ≤ 64 }
    ensures columns { OnOk result (HasColumns filters.now first 64 (D.state device.new).shown) }
    ensures fills { FillsOnly D.Device (InColumns first) (IsErr result) device.old device.new }
{
    for column in 0..64u8 {
        fill_column(page, filters, column);
        device.write(block_of(device, first, column), page)?;
    }
    Ok(())
}

/// Makes the page a column's block in the group of these filter pages.
pub fn fill_column(page: &mut Page, filters: &[FilterPage], column: u8)
    requires column { column < 64 }
    requires few { length filters.now ≤ 64 }
    ensures block { page.new ≡ group_block filters.now column }
{
    page.clear();
    for (place, filter) in filters.iter().enumerate() {
        page.fill_from(64 * place, filter_in(filter, column));
    }
}

/// The filter of a column: 64 bytes.
fn filter_in(filters: &FilterPage, column: u8) -> &[u8]
    requires { column < 64 }
    ensures filter { result.now ≡ filter_in filters.now column }
    ensures len { length result.now ≡ 64 }
{
    let bytes = filters.page().bytes();
    let at = 64 * usize::from(column);
    &bytes[at..at + 64]
}
