//! Writing a manifest area and making it the current one.

ghost use Rattle.std.specs.Prelude.{◌≡◌, ℕ, ◌+◌, ◌*◌, ◌<◌, ◌≤◌, Some, false, [], ◌∷◌, IsErr, OnOk, length};
ghost use Rattle.std.specs.Option.{ForSome};
ghost use Rattle.lt_terms.specs.Bytes.{Image, block_at, block_of};
ghost use Rattle.lt_device.specs.Calls.{FillsOnly, OnlyWrites, TouchesOnly};
ghost use Rattle.lt_device.specs.State.{SameOutside, IsFit};
ghost use Rattle.lt_device.specs.Moments.{UnsyncedIn, MayOnlyLeave};
ghost use Rattle.lt_format.specs.Layout.{area_block, edit_gate, edit_slots, gate_page};
ghost use Rattle.lt_manifest.specs.Written.{AreWritten, ComesFrom, FitsArea, HasArea, InArea, InEdits, page_count};
ghost use Rattle.lt_manifest.specs.Written.{page_of};

use lt_device::Device;
use lt_format::Geometry;
use lt_layout::write_gate;
use lt_page::{Failed, Page};

/// Selects an area and makes sure of that.
pub fn select_area<D: Device>(device: &mut D, area: u8, page: &mut Page) -> Result<(), Failed>
    requires area { area < 2 }
    requires within { 868 ≤ D.blocks device.old }
    ensures written { OnOk result (MayOnlyLeave (λ left. block_at left 1 ≡ block_of (area ∷ []))
        (D.state device.new)) }
    ensures touches { TouchesOnly D.Device (λ k. k ≡ 1) device.old device.new }
    ensures sure { OnOk result (UnsyncedIn (λ _. ⊥) (D.state device.new)) }
    ensures calls { OnlyWrites D.Device (IsErr result) device.old device.new }
{
    fill_selector(page, area);
    device.write(1, page)?;
    device.sync()
}

/// Writes these bytes to an area, closes its edit gates, and makes sure of that. The page holds any
/// bytes afterwards.
pub fn write_area<D: Device>(
    device: &mut D,
    geometry: &Geometry,
    area: u8,
    bytes: &[u8],
    page: &mut Page,
) -> Result<(), Failed>
    requires { FitsArea area (D.blocks device.old) bytes.now }
    ensures written { OnOk result (MayOnlyLeave (HasArea area bytes.now) (D.state device.new)) }

    // All that was written before is sure.
    ensures others_sure { OnOk result ((shown : Image) → (D.state device.old).shown ≡ Some shown
        → MayOnlyLeave (SameOutside (InArea area) shown) (D.state device.new)) }
    ensures fit { OnOk result (IsFit (D.blocks device.new) (D.state device.new)) }
    ensures touches { TouchesOnly D.Device (InArea area) device.old device.new }
    ensures calls { OnlyWrites D.Device (IsErr result) device.old device.new }
{
    fill_area(device, geometry, area, bytes, page)?;
    device.sync()
}

/// Writes these bytes to an area, and closes its edit gates. It does not sync.
pub fn fill_area<D: Device>(
    device: &mut D,
    geometry: &Geometry,
    area: u8,
    bytes: &[u8],
    page: &mut Page,
) -> Result<(), Failed>
    requires { FitsArea area (D.blocks device.old) bytes.now }
    ensures written { OnOk result (ForSome (D.state device.new).shown (HasArea area bytes.now)) }
    ensures fills { FillsOnly D.Device (InArea area) (IsErr result) device.old device.new }
{
    write_pages(device, geometry, area, bytes, page)?;
    close_edits(device, geometry, area, page)
}

/// Writes these bytes to the blocks from the first one of the area on, with zeros up to the end of the
/// last.
fn write_pages<D: Device>(
    device: &mut D,
    geometry: &Geometry,
    area: u8,
    bytes: &[u8],
    page: &mut Page,
) -> Result<(), Failed>
    requires { FitsArea area (D.blocks device.old) bytes.now }
    ensures written { OnOk result (AreWritten (λ k. area_block area + k) (page_of bytes.now)
        (page_count bytes.now) (D.state device.new).shown) }
    ensures fills { FillsOnly D.Device (InArea area) (IsErr result) device.old device.new }
{
    let first = geometry.area(area);
    for block in 0..bytes.len().div_ceil(Page::LEN) {
        fill_page(page, bytes, block);
        device.write(first + block as u64, page)?;
    }
    Ok(())
}

/// Makes the page the block of this number of the bytes.
fn fill_page(page: &mut Page, bytes: &[u8], block: usize)
    requires within { 4096 * block < length bytes.now }
    requires room { length bytes.now ≤ 305 * 4096 }
    ensures { page.new ≡ page_of bytes.now block }
{
    let start = Page::LEN * block;
    let end = bytes.len().min(start + Page::LEN);
    page.clear();
    page.fill_from(0, &bytes[start..end]);
}

/// Closes all edit gates of an area.
fn close_edits<D: Device>(
    device: &mut D,
    geometry: &Geometry,
    area: u8,
    page: &mut Page,
) -> Result<(), Failed>
    requires area { area < 2 }
    requires within { 868 ≤ D.blocks device.old }
    ensures written { OnOk result (AreWritten (edit_gate area) (λ k. gate_page false) edit_slots
        (D.state device.new).shown) }
    ensures kept { ComesFrom (InEdits area) (D.state device.old).shown (D.state device.new).shown }
    ensures fills { FillsOnly D.Device (InEdits area) (IsErr result) device.old device.new }
{
    write_gate(page, false);
    for slot in 0..64u8 {
        device.write(geometry.edit_gate(area, slot), page)?;
    }
    Ok(())
}

/// Makes the page the selector of an area.
pub fn fill_selector(page: &mut Page, area: u8)
    ensures { page.new ≡ block_of (area ∷ []) }
{
    page.clear();
    page.fill_from(0, &[area]);
}
