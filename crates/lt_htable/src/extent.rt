//! The blocks of an extent.

ghost use Rattle.std.specs.Prelude.{◌≡◌, ℕ, ◌+◌, ◌<◌, ◌≤◌, IfOk, IsErrOf, IsTrue, is_some};
ghost use Rattle.lt_device.specs.Calls.{OnlyReads};
ghost use Rattle.lt_tables.specs.Bucket.{bucket_of};
ghost use Rattle.lt_htable.specs.Reading.{IsRead, IsNoBucket};

use super::faults::LookFault;
use lt_bucket::BucketView;
use lt_device::Device;
use lt_page::Page;

/// The block of this number in an extent.
pub fn block_in<D: Device>(device: &D, first: u64, number: u8) -> u64
    requires { first + number < D.blocks device.now }
    ensures { result ≡ first + number }
{
    // The device has the block, so its number is no more than 64 bits.
    let blocks = device.blocks();
    prove!(first < blocks);
    first + number as u64
}

/// Reads a bucket of an extent into the page.
pub fn read_bucket<'p, D: Device>(
    device: &mut D,
    first: u64,
    column: u8,
    page: &'p mut Page,
) -> Result<BucketView<'p>, LookFault>
    requires within { first + column < D.blocks device.old }
    ensures read { IfOk result (IsRead (D.state device.old).shown (first + column)) }
    ensures spelled { IfOk result (λ view. IsTrue (is_some (bucket_of view))) }
    ensures damaged_block { (b : ℕ) → IsErrOf result (LookFault.Damaged b) → b ≡ first + column }
    ensures damaged { (b : ℕ) → IsErrOf result (LookFault.Damaged b)
        → IsNoBucket (D.state device.old).shown (first + column) }
    ensures calls { OnlyReads D.Device 1 (IsErrOf result LookFault.Device) device.old device.new }
{
    let block = block_in(device, first, column);
    device.read(block, page)?;
    match BucketView::of(page) {
        Some(bucket) => Ok(bucket),
        None => Err(LookFault::Damaged(block)),
    }
}
