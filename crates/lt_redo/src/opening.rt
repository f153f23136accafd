//! Reading a log area slot by slot.

ghost use Rattle.std.specs.Prelude.{◌≡◌, ◌-◌, ◌*◌, ◌<◌, ◌≤◌, Some, None, IfOk, OnOk, IsErr, IsErrOf};
ghost use Rattle.std.specs.Option.{ForSome};
ghost use Rattle.lt_terms.specs.Bytes.{block_at};
ghost use Rattle.lt_device.specs.Calls.{OnlyReads};
ghost use Rattle.lt_device.specs.Faults.{FaultBy, FaultIn};
ghost use Rattle.lt_format.specs.Layout.{is_open, log_gate, log_content};
ghost use Rattle.lt_redo.specs.Opening.{GoesOn, IsReadLog, TellsDamage, first_open_from, items_with_slot};
ghost use Rattle.lt_redo.specs.Slots.{InLogArea, LiesWithin};

use crate::replay::Replay;
use lt_device::Device;
use lt_format::Geometry;
use lt_layout::{OpenFault, gate_open};
use lt_page::{Failed, Page};
use std::alloc::Global;

/// Reads the groups of a log area: all gates in their order, and the content of each open one. Answers
/// how many groups there are, and their items. The page holds any bytes afterwards.
pub fn replay<D: Device>(
    alloc: Global,
    device: &mut D,
    geometry: &Geometry,
    area: u8,
    writes: u64,
    page: &mut Page,
) -> Result<(u16, Replay), OpenFault>
    requires within { LiesWithin geometry.now area (D.blocks device.old) }
    ensures writes { IfOk result (λ read. read.1.writes ≡ writes) }
    ensures read { IfOk result (λ read. IsReadLog geometry.now area writes
        read.0 read.1.items.items (D.state device.old).shown) }
    ensures damaged { TellsDamage result geometry.now area writes (D.state device.old).shown }
    ensures damaged_block { FaultIn result OpenFault.Damaged (InLogArea geometry.now area) }
    ensures calls { OnlyReads D.Device (2 * geometry.now.slots) (IsErrOf result OpenFault.Device)
        device.old device.new }
{
    let mut read = Replay::start(alloc, writes);
    for slot in 0..geometry.slots {
        if !read_gate(device, geometry, area, slot, page)? {
            check_closed(device, geometry, area, slot + 1, page)?;
            return Ok((slot, read));
        }
        read = read_content(read, alloc, device, geometry, area, slot, page)?;
    }
    Ok((geometry.slots, read))
}

/// Whether the gate of a slot is open.
fn read_gate<D: Device>(
    device: &mut D,
    geometry: &Geometry,
    area: u8,
    slot: u16,
    page: &mut Page,
) -> Result<bool, Failed>
    requires within { log_gate geometry.now area slot < D.blocks device.old }
    ensures opened { IfOk result (λ opened. ForSome (D.state device.old).shown
        (λ image. is_open (block_at image (log_gate geometry.now area slot)) ≡ opened)) }
    ensures calls { OnlyReads D.Device 1 (IsErr result) device.old device.new }
{
    device.read(geometry.log_gate(area, slot), page)?;
    Ok(gate_open(page))
}

/// Reads the content of a slot, and adds the items of its group to those that were read before.
fn read_content<D: Device>(
    read: Replay,
    alloc: Global,
    device: &mut D,
    geometry: &Geometry,
    area: u8,
    slot: u16,
    page: &mut Page,
) -> Result<Replay, OpenFault>
    requires within { log_content geometry.now area slot < D.blocks device.old }
    ensures goes_on { IfOk result (GoesOn read) }
    ensures items { IfOk result (λ more. ForSome (D.state device.old).shown (λ image.
        items_with_slot geometry.now area slot read image ≡ Some more.items.items)) }
    ensures damaged { FaultBy result OpenFault.Damaged (D.state device.old).shown (λ image b.
        items_with_slot geometry.now area slot read image ≡ None) }
    ensures damaged_block { FaultIn result OpenFault.Damaged
        (λ b. b ≡ log_content geometry.now area slot) }
    ensures calls { OnlyReads D.Device 1 (IsErrOf result OpenFault.Device)
        device.old device.new }
{
    let content = geometry.log_gate(area, slot) + 1;
    device.read(content, page)?;
    match read.with_group(alloc, page)? {
        Some(more) => Ok(more),
        None => Err(OpenFault::Damaged(content)),
    }
}

/// Reads the gates from a slot on, which are all to be closed.
fn check_closed<D: Device>(
    device: &mut D,
    geometry: &Geometry,
    area: u8,
    from: u16,
    page: &mut Page,
) -> Result<(), OpenFault>
    requires within { LiesWithin geometry.now area (D.blocks device.old) }
    requires from { from ≤ geometry.now.slots }
    ensures closed { OnOk result (ForSome (D.state device.old).shown
        (λ image. first_open_from geometry.now area from image ≡ None)) }
    ensures damaged { FaultBy result OpenFault.Damaged (D.state device.old).shown
        (λ image b. first_open_from geometry.now area from image ≡ Some b) }
    ensures damaged_block { FaultIn result OpenFault.Damaged (InLogArea geometry.now area) }
    ensures calls { OnlyReads D.Device (geometry.now.slots - from) (IsErrOf result OpenFault.Device)
        device.old device.new }
{
    for slot in from..geometry.slots {
        if read_gate(device, geometry, area, slot, page)? {
            return Err(OpenFault::Damaged(geometry.log_gate(area, slot)));
        }
    }
    Ok(())
}
