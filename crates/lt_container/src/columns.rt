//! The blocks of a group, one for each column.

ghost use Rattle.std.specs.Prelude.{◌≡◌, ◌+◌, ◌<◌, ◌≤◌, OnOk};
ghost use Rattle.std.specs.Option.{ForSome};
ghost use Rattle.lt_terms.specs.Bytes.{block_at};
ghost use Rattle.lt_terms.specs.Causes.{CountsOne, HasCause};

use lt_device::Device;
use lt_page::{Failed, Page};

/// Reads the block of a column of the group whose extent begins at block `first`: one read.
pub fn read_column<D: Device>(
    device: &mut D,
    first: u64,
    column: u8,
    page: &mut Page,
) -> Result<(), Failed>
    requires within { first + 65 ≤ D.blocks device.old }
    requires column { column < 64 }
    ensures content { OnOk result (ForSome (D.state device.old).shown
        (λ image. page.new ≡ block_at image (first + column))) }
    ensures state { D.state device.new ≡ D.state device.old }
    ensures size { D.blocks device.new ≡ D.blocks device.old }
    ensures count { CountsOne (D.reads device.old) (D.reads device.new) }
    ensures cause { HasCause (D.faults device.old) (D.faults device.new) result }
{
    let block = block_of(device, first, column);
    device.read(block, page)
}

/// The block of a column.
pub(super) fn block_of<D: Device>(device: &D, first: u64, column: u8) -> u64
    requires { first + column < D.blocks device.now }
    ensures { result ≡ first + column }
{
    // The device has the block, so its number is no more than 64 bits.
    let blocks = device.blocks();
    prove!(first < blocks);
    first + column as u64
}
