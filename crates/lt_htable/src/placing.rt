//! The placement of a list of items.

ghost use Rattle.std.specs.Prelude.{◌≡◌, ℕ, ◌<◌, Some, IfOk, IsTrue, map};
ghost use Rattle.lt_tables.specs.Bucket.{fits_bucket};
ghost use Rattle.lt_tables.specs.Table.{newest, bucket_in};
ghost use Rattle.lt_tables.specs.Placement.{entry_of, has_placement, placement_of};

use super::summary::entries_of;
use lt_balance::{Placement, place};
use lt_bucket::Item;
use lt_page::NoMemory;
use std::alloc::Global;

/// The placement of these items.
pub(super) fn placement_of(alloc: Global, items: &[Item]) -> Result<Placement, NoMemory>
    requires ranked { newest items.now ≡ items.now }
    requires placed { IsTrue (has_placement (map entry_of items.now)) }
    ensures placement { IfOk result (λ plans. placement_of items.now ≡ Some plans) }
    ensures fits { IfOk result (λ plans. (c : ℕ) → c < 64 → IsTrue (fits_bucket (bucket_in plans items.now c))) }
{
    let entries = entries_of(alloc, items)?;
    let found = place(alloc, &entries)?;
    Ok(found.unwrap())
}
