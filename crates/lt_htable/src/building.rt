//! Writing a table.

ghost use Rattle.std.specs.Prelude.{◌≡◌, ℕ, ◌+◌, ◌<◌, ◌≤◌, Some, IfOk, OnOk, IsErr, IsErrOf, IsTrue, length, map};
ghost use Rattle.lt_terms.specs.Bytes.{Image};
ghost use Rattle.lt_terms.specs.Causes.{Rose};
ghost use Rattle.lt_device.specs.Calls.{OnlyWrites};
ghost use Rattle.lt_device.specs.Moments.{ConfinedTo, ShowsSameOutside};
ghost use Rattle.lt_tables.specs.Bucket.{fits_bucket};
ghost use Rattle.lt_tables.specs.Filter.{filter_block};
ghost use Rattle.lt_tables.specs.Table.{newest, bucket_in, blocks_from, IsPlaced};
ghost use Rattle.lt_tables.specs.Placement.{entry_of, has_placement};
ghost use Rattle.lt_htable.specs.Building.{HasBuckets, InExtent};

use super::extent::block_in;
use super::faults::BuildFault;
use super::filling::fill_bucket;
use super::filters::filters_of;
use super::placing::placement_of;
use lt_balance::Placement;
use lt_bloom::FilterPage;
use lt_bucket::Item;
use lt_device::Device;
use lt_page::{Failed, Page};
use std::alloc::Global;

/// Writes the table of these items to the extent that begins at block `first`: the 64 buckets of their
/// placement, in order, and then their filters, which it answers. It does not sync.
pub fn build<D: Device>(
    alloc: Global,
    device: &mut D,
    first: u64,
    items: &[Item],
) -> Result<FilterPage, BuildFault>
    requires within { first + 65 ≤ D.blocks device.old }
    requires some { 0 < length items.now }
    // In rank order, each key once.
    requires ranked { newest items.now ≡ items.now }
    requires placed { IsTrue (has_placement (map entry_of items.now)) }

    ensures filters { IfOk result (λ filters. filters ≡ filter_block items.now) }
    ensures placed { OnOk result ((image : Image) → (D.state device.new).shown ≡ Some image
        → IsPlaced items.now (blocks_from image first)) }

    // Whatever it answers, it touches no other block and syncs nothing.
    ensures confined { ConfinedTo (InExtent first) (D.state device.old) (D.state device.new) }
    ensures others { ShowsSameOutside (InExtent first) (D.state device.old).shown (D.state device.new).shown }
    ensures no_sync { (D.state device.new).past ≡ (D.state device.old).past }

    ensures size { D.blocks device.new ≡ D.blocks device.old }
    ensures count { D.reads device.new ≡ D.reads device.old }
    ensures later { D.faults device.old ≤ D.faults device.new }
    ensures cause { IsErrOf result BuildFault.Device → Rose (D.faults device.old) (D.faults device.new) }
{
    let filters = filters_of(alloc, items)?;
    let placement = placement_of(alloc, items)?;
    let mut page = Page::new(alloc)?;
    write_buckets(device, first, items, &placement, &mut page)?;
    device.write(block_in(device, first, 64), filters.page())?;
    Ok(filters)
}

/// Writes the 64 buckets of a placement, one after another.
fn write_buckets<D: Device>(
    device: &mut D,
    first: u64,
    items: &[Item],
    placement: &Placement,
    page: &mut Page,
) -> Result<(), Failed>
    requires within { first + 65 ≤ D.blocks device.old }
    requires ranked { newest items.now ≡ items.now }
    requires fits { (c : ℕ) → c < 64 → IsTrue (fits_bucket (bucket_in placement.now items.now c)) }
    ensures buckets { OnOk result (HasBuckets placement.now items.now first 64 (D.state device.new).shown) }
    ensures confined { ConfinedTo (InExtent first) (D.state device.old) (D.state device.new) }
    ensures others { ShowsSameOutside (InExtent first) (D.state device.old).shown (D.state device.new).shown }
    ensures no_sync { (D.state device.new).past ≡ (D.state device.old).past }
    ensures calls { OnlyWrites D.Device (IsErr result) device.old device.new }
{
    for column in 0..64u8 {
        fill_bucket(page, items, placement, column);
        device.write(block_in(device, first, column), page)?;
    }
    Ok(())
}
