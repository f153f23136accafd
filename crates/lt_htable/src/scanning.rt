//! All items of a table.

ghost use Rattle.std.specs.Prelude.{◌≡◌, ℕ, ◌+◌, ◌<◌, ◌≤◌, List, Some, IfOk, IsErrOf, length};
ghost use Rattle.lt_device.specs.Calls.{OnlyReads};
ghost use Rattle.lt_terms.specs.Bytes.{Image};
ghost use Rattle.lt_terms.specs.Items as terms;
ghost use Rattle.lt_tables.specs.Alike.{HasOnce, SameNewest};
ghost use Rattle.lt_tables.specs.Table.{blocks_from, IsPlaced, table_items};
ghost use Rattle.lt_htable.specs.Reading.{IsScanned, IsNoBucket};

use super::extent::read_bucket;
use super::faults::ScanFault;
use lt_bucket::{Item, push_all};
use lt_device::Device;
use lt_page::Page;
use std::alloc::Global;

/// All items of the table whose extent begins at block `first`, bucket after bucket.
pub fn scan<D: Device>(alloc: Global, device: &mut D, first: u64) -> Result<Vec<Item>, ScanFault>
    requires { first + 65 ≤ D.blocks device.old }
    ensures items { IfOk result (λ items. IsScanned (D.state device.old).shown first items.items) }
    ensures shown { IfOk result (λ items. (image : Image) → (D.state device.old).shown ≡ Some image
        → items.items ≡ table_items (blocks_from image first)) }

    // On the table of some items these are theirs, each key once.
    ensures placed { IfOk result (λ found. (image : Image) (items : List terms.Item)
        → (D.state device.old).shown ≡ Some image → IsPlaced items (blocks_from image first)
        → SameNewest found.items items × HasOnce found.items) }

    // 64 buckets of at most 816 items each.
    ensures few { IfOk result (λ items. length items.items ≤ 52224) }

    ensures damaged { (b : ℕ) → IsErrOf result (ScanFault.Damaged b)
        → (c : ℕ) × (c < 64) × (b ≡ first + c) × IsNoBucket (D.state device.old).shown b }
    ensures calls { OnlyReads D.Device 64 (IsErrOf result ScanFault.Device) device.old device.new }
{
    let mut items = Vec::new(alloc);
    let mut page = Page::new(alloc)?;
    for column in 0..64u8 {
        let bucket = read_bucket(device, first, column, &mut page)?;
        push_all(alloc, &mut items, bucket.items())?;
    }
    Ok(items)
}
