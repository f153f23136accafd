//! Closing the gates of a log area.

ghost use Rattle.std.specs.Prelude.{◌≡◌, false, IsErr, OnOk};
ghost use Rattle.std.specs.Option.{ForSome};
ghost use Rattle.lt_device.specs.Calls.{OnlyWrites, TouchesOnly};
ghost use Rattle.lt_format.specs.Layout.{gate_page};
ghost use Rattle.lt_redo.specs.Slots.{HasZeroGates, InLogArea, IsCleared, LiesWithin};

use lt_device::Device;
use lt_format::Geometry;
use lt_page::{Failed, Page};

/// Closes all gates of a log area. It does not sync.
pub fn close_gates<D: Device>(
    device: &mut D,
    geometry: &Geometry,
    area: u8,
    closed: &Page,
) -> Result<(), Failed>
    requires within { LiesWithin geometry.now area (D.blocks device.old) }
    requires closes { closed.now ≡ gate_page false }
    ensures closed { OnOk result (ForSome (D.state device.new).shown (IsCleared geometry.now area)) }
    ensures zeros { OnOk result (ForSome (D.state device.new).shown
        (HasZeroGates geometry.now area)) }
    ensures touches { TouchesOnly D.Device (InLogArea geometry.now area) device.old device.new }
    ensures calls { OnlyWrites D.Device (IsErr result) device.old device.new }
{
    for slot in 0..geometry.slots {
        device.write(geometry.log_gate(area, slot), closed)?;
    }
    Ok(())
}
