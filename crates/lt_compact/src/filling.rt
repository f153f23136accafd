//! One extent is filled: with a table, or with a group.

ghost use Rattle.std.specs.Prelude.{◌≡◌, ℕ, ◌+◌, ◌*◌, ◌^◌, ◌<◌, ◌≤◌, ◌++◌, [], false, Some, IfOk, OnOk, IsErrOf};
ghost use Rattle.std.specs.Prelude.{length, slice_index, slice_index_or, slice_range, IsTrue, vec_capacity};
ghost use Rattle.lt_terms.specs.Bytes.{Image, is_in};
ghost use Rattle.lt_device.specs.Calls.{OnlyReads, OnlyWrites, ReadsAndWrites};
ghost use Rattle.lt_format.specs.Layout.{extent_block};
ghost use Rattle.lt_htable.specs.Building.{InExtent};
ghost use Rattle.lt_image.specs.Standing.{filter_blocks};
ghost use Rattle.lt_tables.specs.Filter.{IsGroup};
ghost use Rattle.lt_tables.specs.Table.{blocks_from};
ghost use Rattle.lt_compact.specs.Plans.{Content, Holds, MayFill, all_contents, extents_for, filters_of};
ghost use Rattle.lt_compact.specs.Filling.{AreWithin, FillsWithin, IsSpot};

use crate::share::Share;
use lt_bloom::FilterPage;
use lt_container::{GroupFault, write_group};
use lt_device::Device;
use lt_format::Geometry;
use lt_htable::{BuildFault, build, read_filters};
use lt_page::NoMemory;
use std::alloc::Global;

/// Fills the extent of this number among those that shares take: with a table, whose filters it answers, or
/// with the group of tables that were written before. It syncs nothing.
pub(super) fn fill<D: Device>(
    alloc: Global,
    device: &mut D,
    geometry: &Geometry,
    shares: &[Share],
    numbers: &[u32],
    filled: u32,
) -> Result<Option<FilterPage>, BuildFault>
    requires may { MayFill geometry.now (D.blocks device.old) shares.now numbers.now }
    requires left { filled < length numbers.now }

    // A group is made of the filters that the device tells before.
    ensures holds { OnOk result ((before image : Image) (c : Content)
        → (D.state device.old).shown ≡ Some before → (D.state device.new).shown ≡ Some image
        → Holds geometry.now image (slice_index numbers.now filled)
        (slice_index_or (all_contents geometry.now.levels shares.now numbers.now) filled c)) }
    ensures filters { IfOk result (λ built. (c : Content) → built ≡ filters_of
        (slice_index_or (all_contents geometry.now.levels shares.now numbers.now) filled c)) }

    // Whatever it answers, it touches no other block.
    ensures touches { FillsWithin (InExtent (extent_block geometry.now (slice_index numbers.now filled)))
        (D.state device.old) (D.state device.new) }
    ensures calls { ReadsAndWrites D.Device 64 (IsErrOf result BuildFault.Device) device.old device.new }
{
    let Spot {
        share,
        first,
        place,
    } = spot_of(geometry.levels, shares, filled);
    let share = &shares[share];
    let extent = geometry.extent(numbers[filled as usize]);
    if place < share.tables() {
        Ok(Some(build(alloc, device, extent, share.part(place))?))
    } else {
        let group = share.kept_groups(geometry.levels) + (place - share.tables());
        let new = &numbers[first..first + share.tables()];
        let tables = tables_of(alloc, share.behind(), new, group)?;
        fill_group(alloc, device, geometry, extent, &tables)?;
        Ok(None)
    }
}

/// Where an extent stands among those that shares take.
struct Spot {
    /// Whose extent it is.
    share: usize,
    /// How many extents the shares before take.
    first: usize,
    /// How many extents of the share stand before it.
    place: usize,
}

/// Where the extent of a number stands.
fn spot_of(levels: u8, shares: &[Share], filled: u32) -> Spot
    requires { filled < extents_for levels shares.now }
    ensures { IsSpot levels shares.now filled result.share result.first result.place }
{
    let mut first = 0;
    for (index, share) in shares.iter().enumerate() {
        let count = share.extents(levels);
        if (filled as usize) < first + count {
            return Spot {
                share: index,
                first,
                place: filled as usize - first,
            };
        }
        first += count;
    }
    unreachable!()
}

/// The tables of a group of a pile to which new tables come.
fn tables_of(alloc: Global, behind: &[u32], new: &[u32], group: usize) -> Result<Vec<u32>, NoMemory>
    requires some { 64 * group < length (behind.now ++ new.now) }
    requires few { length (behind.now ++ new.now) < 2 ^ 33 }
    ensures { IfOk result (λ tables. tables.items
        ≡ slice_range (behind.now ++ new.now) (64 * group) (64 * group + 64)) }
{
    let first = 64 * group;
    let end = (first + 64).min(behind.len() + new.len());
    let mut tables = Vec::with_capacity(alloc, 64)?;
    for place in first..end {
        tables.push_reserved(number_at(behind, new, place));
    }
    Ok(tables)
}

/// The number at a place of two lists, one behind the other.
fn number_at(behind: &[u32], new: &[u32], place: usize) -> u32
    requires { place < length (behind.now ++ new.now) }
    ensures { result ≡ slice_index (behind.now ++ new.now) place }
{
    if place < behind.len() {
        behind[place]
    } else {
        new[place - behind.len()]
    }
}

/// Writes the group of these tables to the extent that begins at block `first`.
fn fill_group<D: Device>(
    alloc: Global,
    device: &mut D,
    geometry: &Geometry,
    first: u64,
    tables: &[u32],
) -> Result<(), BuildFault>
    requires within { first + 65 ≤ D.blocks device.old }
    requires tables { AreWithin geometry.now (D.blocks device.old) tables.now }
    requires some { 1 ≤ length tables.now }
    requires few { length tables.now ≤ 64 }
    requires apart { (x : ℕ) → IsTrue (is_in x tables.now) → InExtent first (extent_block geometry.now x + 64) → ⊥ }
    ensures grouped { OnOk result ((before image : Image) → (D.state device.old).shown ≡ Some before
        → (D.state device.new).shown ≡ Some image
        → IsGroup (filter_blocks geometry.now image tables.now) (blocks_from image first)) }
    ensures touches { FillsWithin (InExtent first) (D.state device.old) (D.state device.new) }
    ensures calls { ReadsAndWrites D.Device 64 (IsErrOf result BuildFault.Device) device.old device.new }
{
    let pages = filters_of(alloc, device, geometry, tables)?;
    match write_group(alloc, device, first, &pages) {
        Ok(()) => Ok(()),
        Err(GroupFault::Device) => Err(BuildFault::Device),
        Err(GroupFault::NoMemory) => Err(BuildFault::NoMemory),
    }
}

/// The filters of tables, as the device tells them: one read each.
fn filters_of<D: Device>(
    alloc: Global,
    device: &mut D,
    geometry: &Geometry,
    tables: &[u32],
) -> Result<Vec<FilterPage>, BuildFault>
    requires within { AreWithin geometry.now (D.blocks device.old) tables.now }
    requires few { length tables.now ≤ 64 }
    ensures filters { IfOk result (λ pages. (image : Image) → (D.state device.old).shown ≡ Some image
        → pages.items ≡ filter_blocks geometry.now image tables.now) }
    ensures count { IfOk result (λ pages. length pages.items ≡ length tables.now) }
    ensures calls { OnlyReads D.Device 64 (IsErrOf result BuildFault.Device) device.old device.new }
{
    let mut pages = room(alloc, tables.len())?;
    for number in tables {
        pages.push_reserved(read_filters(alloc, device, geometry.extent(*number))?);
    }
    Ok(pages)
}

/// An empty list with room for so many pages.
fn room(alloc: Global, count: usize) -> Result<Vec<FilterPage>, NoMemory>
    ensures empty { IfOk result (λ pages. pages.items ≡ []) }
    ensures room { IfOk result (λ pages. count ≤ vec_capacity pages) }
{
    Ok(Vec::with_capacity(alloc, count)?)
}
