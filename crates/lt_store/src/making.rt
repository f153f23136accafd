//! Making a store on a device.

ghost use Rattle.std.specs.Prelude.{IsErr, ◌≡◌, ◌≢◌, ℕ, ◌<◌, ◌≤◌, ◌↔◌, Bool, List, Some, IfOk, OnOk, IsErrOf, IsTrue};
ghost use Rattle.std.specs.Option.{ForSome};
ghost use Rattle.lt_terms.specs.Bytes.{block_at, zero_block};
ghost use Rattle.lt_device.specs.Calls.{OnlyReads, OnlyWrites, ReadsAndWrites};
ghost use Rattle.lt_device.specs.Moments.{ConfinedTo};
ghost use Rattle.lt_device.specs.State.{IsFit, synced, written};
ghost use Rattle.lt_format.specs.Layout.{is_geometry, superblock};
ghost use Rattle.lt_format.specs.Snapshot.{extents_stand};
ghost use Rattle.lt_store.specs.Making.{HasRegions, InFresh, blocks_for, geometry_of};
ghost use Rattle.lt_store.specs.Promise.{IsFresh, IsOccupied, IsVacant};

use super::faults::InitFault;
use lt_device::Device;
use lt_format::Geometry;
use lt_layout::{write_gate, write_super};
use lt_manifest::{CommitFault, Manifest};
use lt_page::{Failed, Page};
use lt_redo::close_gates;
use std::alloc::Global;

/// Makes a store without keys: 1 to 65,536 extents, 2 to 5 levels of the trie, and 1 to 512 slots in
/// each log area.
///
/// `TooSmall` exactly where the device has fewer blocks than are needed; else `Occupied` exactly where
/// block 0 is not all zero. Nothing is written then.
pub fn init<D: Device>(
    alloc: Global,
    device: &mut D,
    extents: u32,
    levels: u8,
    slots: u16,
) -> Result<(), InitFault>
    requires geometry { IsTrue (is_geometry (geometry_of levels slots)) }
    requires least { 1 ≤ extents }
    requires most { extents ≤ 65536 }

    // Where the device tells what a crash may leave.
    ensures fresh { OnOk result ((flags : List Bool) → (D.state device.new).unsynced ≡ Some flags
        → IsFresh (geometry_of levels slots) extents (D.state device.new)) }
    ensures vacant { OnOk result (IsVacant (D.state device.old)) }
    ensures room { OnOk result (blocks_for levels slots extents ≤ D.blocks device.old) }

    ensures small { D.blocks device.old < blocks_for levels slots extents
        → IsErrOf result (InitFault.TooSmall (blocks_for levels slots extents)
        (D.blocks device.old)) × (device.new ≡ device.old) }
    ensures too_small { (needed has : ℕ) → IsErrOf result (InitFault.TooSmall needed has)
        → D.blocks device.old < blocks_for levels slots extents }
    ensures occupied { IsErrOf result InitFault.Occupied → IsOccupied (D.state device.old) }
    ensures unwritten { IsErrOf result InitFault.Occupied
        → D.state device.new ≡ D.state device.old }
    ensures kept { ForSome (D.state device.old).shown (λ image. block_at image 0 ≢ zero_block
        → D.state device.new ≡ D.state device.old) }

    // Whatever it answers, it touches no other block.
    ensures confined { ConfinedTo (InFresh (geometry_of levels slots)) (D.state device.old) (D.state device.new) }
    ensures calls { ReadsAndWrites D.Device 1 (IsErrOf result InitFault.Device) device.old
        device.new }
{
    let geometry = Geometry { levels, slots };
    let needed = geometry.needed(extents);
    let has = device.blocks();
    if has < needed {
        return Err(InitFault::TooSmall { needed, has });
    }
    let mut page = Page::new(alloc)?;
    if !is_vacant(device, &mut page)? {
        return Err(InitFault::Occupied);
    }
    write_regions(alloc, device, &geometry, extents, &mut page)?;
    write_superblock(device, &geometry, &mut page)?;
    Ok(())
}

/// Whether block 0 is all zero.
fn is_vacant<D: Device>(device: &mut D, page: &mut Page) -> Result<bool, Failed>
    requires { 0 < D.blocks device.old }
    ensures vacant { IfOk result
        (λ vacant. ForSome (D.state device.old).shown
        (λ image. IsTrue vacant ↔ (block_at image 0 ≡ zero_block))) }
    ensures calls { OnlyReads D.Device 1 (IsErr result) device.old device.new }
{
    device.read(0, page)?;
    Ok(page.is_zero())
}

/// Closes the gates of the first log area and writes the manifest, and makes sure of both. The page
/// holds any bytes afterwards.
fn write_regions<D: Device>(
    alloc: Global,
    device: &mut D,
    geometry: &Geometry,
    extents: u32,
    page: &mut Page,
) -> Result<(), CommitFault>
    requires valid { IsTrue (is_geometry geometry.now) }
    requires stands { IsTrue (extents_stand geometry.now (D.blocks device.old) extents) }
    ensures regions { OnOk result (ForSome (D.state device.new).unsynced
        (λ _. HasRegions geometry.now extents (D.state device.new))) }
    ensures confined { ConfinedTo (InFresh geometry.now) (D.state device.old) (D.state device.new) }
    ensures calls { OnlyWrites D.Device (IsErrOf result CommitFault.Device) device.old device.new }
{
    write_gate(page, false);
    close_gates(device, geometry, 0, page)?;
    Manifest::format(alloc, device, geometry, extents)?;
    device.sync()?;
    Ok(())
}

/// Writes the superblock and makes sure of it. The page holds any bytes afterwards.
fn write_superblock<D: Device>(
    device: &mut D,
    geometry: &Geometry,
    page: &mut Page,
) -> Result<(), Failed>
    requires { 0 < D.blocks device.old }
    ensures written { OnOk result
        (D.state device.new ≡ synced (written (D.state device.old) 0 (superblock geometry.now))) }
    ensures fit { OnOk result
        (IsFit (D.blocks device.old) (written (D.state device.old) 0 (superblock geometry.now))) }
    ensures confined { ConfinedTo (λ n. n ≡ 0) (D.state device.old) (D.state device.new) }
    ensures calls { OnlyWrites D.Device (IsErr result) device.old device.new }
{
    write_super(page, geometry);
    device.write(0, page)?;
    device.sync()
}
