//! One slot of a log area: a gate, and the content behind it.

ghost use Rattle.std.specs.Prelude.{◌≡◌, ◌<◌, true, IsErr, OnOk};
ghost use Rattle.lt_device.specs.Calls.{OnlyWrites, TouchesOnly};
ghost use Rattle.lt_format.specs.Layout.{log_content, gate_page};
ghost use Rattle.lt_redo.specs.Slots.{HasWritten, InSlot, WritesGroup};

use lt_device::Device;
use lt_format::Geometry;
use lt_page::{Failed, Page};

/// Writes the group behind the log's groups: its content, which is made sure, and then its gate, which
/// is made sure.
pub fn write_slot<D: Device>(
    device: &mut D,
    geometry: &Geometry,
    area: u8,
    slot: u16,
    content: &Page,
    opened: &Page,
) -> Result<(), Failed>
    requires within { log_content geometry.now area slot < D.blocks device.old }
    requires opens { opened.now ≡ gate_page true }

    // Each image since the start has the log as before, or with the whole group; after Ok only the latter.
    ensures any_moment { WritesGroup geometry.now area slot content.now (D.state device.old)
        (D.state device.new) }
    ensures written { OnOk result (HasWritten geometry.now area slot content.now
        (D.state device.old) (D.state device.new)) }
    ensures touches { TouchesOnly D.Device (InSlot geometry.now area slot) device.old device.new }
    ensures calls { OnlyWrites D.Device (IsErr result) device.old device.new }
{
    let gate = geometry.log_gate(area, slot);
    device.write(gate + 1, content)?;
    device.sync()?;
    device.write(gate, opened)?;
    device.sync()
}
