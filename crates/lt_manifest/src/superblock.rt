//! Reading the superblock.

ghost use Rattle.std.specs.Prelude.{◌≡◌, ◌≤◌, Ok, Err, IfOk, IfSome, IsErrOf, IsTrue};
ghost use Rattle.std.specs.Option.{ForSome, ok_or};
ghost use Rattle.lt_device.specs.Calls.{OnlyReads};
ghost use Rattle.lt_device.specs.Faults.{FaultBy, FaultIn};
ghost use Rattle.lt_format.specs.Layout.{is_geometry, geometry_of, blocks_needed};
ghost use Rattle.lt_format.specs.Snapshot.{geometry_in, roomy};

use lt_device::Device;
use lt_format::Geometry;
use lt_layout::{OpenFault, read_super};
use lt_page::Page;
use std::alloc::Global;

/// Reads the geometry from block 0. `Damaged(0)` where the device has no block, block 0 spells no
/// superblock, or the device is too small for the fixed regions.
pub fn read_geometry<D: Device>(alloc: Global, device: &mut D) -> Result<Geometry, OpenFault>
    ensures read { IfOk result (λ geometry. ForSome (D.state device.old).shown
        (λ image. geometry_in image ≡ Ok geometry)) }

    // Whatever the device tells.
    ensures valid { IfOk result (λ geometry. IsTrue (is_geometry geometry)) }
    ensures room { IfOk result (λ geometry. blocks_needed geometry 0 ≤ D.blocks device.old) }

    ensures damaged { FaultBy result OpenFault.Damaged (D.state device.old).shown
        (λ image b. geometry_in image ≡ Err b) }
    ensures damaged_block { FaultIn result OpenFault.Damaged (λ b. b ≡ 0) }
    ensures calls { OnlyReads D.Device 1 (IsErrOf result OpenFault.Device) device.old device.new }
    ensures none { D.blocks device.old ≡ 0 → D.reads device.new ≡ D.reads device.old }
{
    if device.blocks() == 0 {
        return Err(OpenFault::Damaged(0));
    }
    let mut page = Page::new(alloc)?;
    device.read(0, &mut page)?;
    roomy(&page, device.blocks()).ok_or(OpenFault::Damaged(0))
}

/// The geometry of the superblock on this page, where so many blocks have room for its fixed regions.
fn roomy(page: &Page, blocks: u64) -> Option<Geometry>
    ensures read { ok_or result 0 ≡ roomy blocks (geometry_of page.now) }
    ensures valid { IfSome result (λ geometry. IsTrue (is_geometry geometry)) }
    ensures room { IfSome result (λ geometry. blocks_needed geometry 0 ≤ blocks) }
{
    let geometry = read_super(page)?;
    if geometry.needed(0) <= blocks {
        Some(geometry)
    } else {
        None
    }
}
