//! Tables of the root, written into free extents.

ghost use Rattle.std.specs.Prelude.{◌≡◌, false, ℕ, ◌≤◌, None, OnOk, IsErrOf, IsTrue, length, map, All, Some};
ghost use Rattle.std.specs.Prelude.{slice_index_or};
ghost use Rattle.std.specs.List.{AllZip};
ghost use Rattle.lt_terms.specs.Bytes.{Image, is_in};
ghost use Rattle.lt_device.specs.Calls.{OnlyWrites};
ghost use Rattle.lt_device.specs.Moments.{ConfinedTo, ShowsSameOutside};
ghost use Rattle.lt_format.specs.Layout.{blocks_needed};
ghost use Rattle.lt_format.specs.Trie.{all_distinct, all_below};
ghost use Rattle.lt_htable.specs.Cutting.{IsPart};
ghost use Rattle.lt_store.specs.Building.{InExtents, HasTable};

use lt_bucket::Item;
use lt_device::Device;
use lt_format::Geometry;
use lt_htable::{BuildFault, build};
use lt_search::InnerFilters;
use std::alloc::Global;

/// Writes a table into each of these extents, and keeps its filters. It does not sync.
pub(super) fn build_tables<D: Device>(
    alloc: Global,
    device: &mut D,
    geometry: &Geometry,
    tables: &[&[Item]],
    numbers: &[u32],
    filters: &mut InnerFilters,
) -> Result<(), BuildFault>
    requires parts { All (λ table. IsPart table.now) tables.now }
    requires same_count { length tables.now ≡ length numbers.now }
    requires distinct { IsTrue (all_distinct numbers.now) }
    requires below { IsTrue (all_below (length filters.old) numbers.now) }
    requires within { blocks_needed geometry.now (length filters.old) ≤ D.blocks device.old }
    ensures built { OnOk result ((before image : Image) → (D.state device.old).shown ≡ Some before
        → (D.state device.new).shown ≡ Some image
        → AllZip (HasTable geometry.now filters.new image) numbers.now
        (map (λ table. table.now) tables.now)) }
    ensures filters { (x : ℕ) → is_in x numbers.now ≡ false
        → slice_index_or filters.new x None ≡ slice_index_or filters.old x None }
    ensures room { length filters.new ≡ length filters.old }

    // Whatever it answers, it touches no other block.
    ensures confined { ConfinedTo (InExtents geometry.now numbers.now) (D.state device.old)
        (D.state device.new) }
    ensures others { ShowsSameOutside (InExtents geometry.now numbers.now)
        (D.state device.old).shown (D.state device.new).shown }
    ensures calls { OnlyWrites D.Device (IsErrOf result BuildFault.Device) device.old device.new }
{
    for (turn, number) in numbers.iter().enumerate() {
        let built = build(alloc, device, geometry.extent(*number), tables[turn])?;
        filters.keep(*number, built);
    }
    Ok(())
}
