//! The word `init`.

ghost use Rattle.std.specs.Prelude.{◌≡◌, ◌≤◌, IsTrue};
ghost use Rattle.lt_terms.specs.Causes.{Rose};
ghost use Rattle.lt_format.specs.Layout.{is_geometry};
ghost use Rattle.lt_cli.specs.Promise.{InitEnded};

use crate::status::Status;
use crate::telling::tell_small;
use lt_device::Device;
use lt_io::{Sink, write_all};
use lt_store::{InitFault, init};
use std::alloc::Global;

/// Makes a store.
pub(super) fn make<K: Sink, D: Device>(
    alloc: Global,
    sink: &mut K,
    device: &mut D,
    extents: u32,
    levels: u8,
    slots: u16,
) -> Status
    requires geometry { IsTrue (is_geometry (record { levels = levels; slots = slots })) }
    requires least { 1 ≤ extents }
    requires most { extents ≤ 65536 }
    ensures init { InitEnded K.Sink D.Device (record { levels = levels; slots = slots }) extents result
        sink.old sink.new device.old device.new }
    ensures device { result ≡ Status.DeviceFault
        → Rose (D.faults device.old) (D.faults device.new) }
{
    match init(alloc, device, extents, levels, slots) {
        Ok(()) => Status::Done,
        Err(InitFault::Device) => Status::DeviceFault,
        Err(InitFault::NoMemory) => Status::NoMemory,
        Err(InitFault::Occupied) => {
            // A sink fault leaves the status.
            let _ = write_all(sink, b"OCCUPIED\n");
            Status::Refused
        }
        Err(InitFault::TooSmall { needed, has }) => {
            let _ = tell_small(sink, needed, has);
            Status::Refused
        }
    }
}
