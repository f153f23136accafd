//! Reading the bytes of a snapshot.

ghost use Rattle.std.specs.Prelude.{◌≡◌, ℕ, ◌+◌, ◌*◌, ◌/◌, ◌<◌, ◌≤◌, IfOk, IsErrOf, length, take};
ghost use Rattle.std.specs.Option.{ForSome};
ghost use Rattle.lt_terms.specs.Bytes.{block_at};
ghost use Rattle.lt_device.specs.Calls.{OnlyReads};
ghost use Rattle.lt_manifest.specs.Area.{AreBytesFrom};

use crate::fault::ReadFault;
use lt_device::Device;
use lt_layout::OpenFault;
use lt_page::Page;
use std::alloc::Global;

/// As many bytes as wanted from the first block on, which is on the page.
pub fn read_bytes<D: Device>(
    alloc: Global,
    device: &mut D,
    first: u64,
    count: usize,
    page: &mut Page,
) -> Result<Vec<u8>, OpenFault>
    requires some { 1 ≤ count }
    requires few { count ≤ 305 * 4096 }
    requires low { first < 868 }
    requires within { first + 305 ≤ D.blocks device.old }
    ensures count { IfOk result (λ bytes. length bytes.items ≡ count) }
    ensures read { IfOk result (λ bytes. ForSome (D.state device.old).shown
        (λ image. page.old ≡ block_at image first → AreBytesFrom image first bytes.items)) }
    ensures undamaged { (b : ℕ) → IsErrOf result (OpenFault.Damaged b) → ⊥ }
    ensures calls { OnlyReads D.Device 304 (IsErrOf result OpenFault.Device)
        device.old device.new }
{
    let Ok(mut bytes) = Vec::from_slice(alloc, page.bytes()) else {
        return Err(OpenFault::NoMemory);
    };
    for block in 1..count.div_ceil(Page::LEN) {
        device.read(first + block as u64, page)?;
        let Ok(()) = bytes.extend_from_slice(page.bytes()) else {
            return Err(OpenFault::NoMemory);
        };
    }
    bytes.truncate(count);
    Ok(bytes)
}

/// The first bytes, as many as wanted.
pub fn front_part(bytes: &[u8], count: usize) -> &[u8]
    requires { count ≤ length bytes.now }
    ensures bytes { result.now ≡ take count bytes.now }
    ensures length { length result.now ≡ count }
{
    &bytes[..count]
}

/// The fault of an area that begins at this block.
pub fn fault_from(first: u64, fault: ReadFault) -> OpenFault
    requires { first < 868 }
    ensures damaged { (b : ℕ) → result ≡ OpenFault.Damaged b
        → (e : ℕ) × (fault ≡ ReadFault.Field e) × (b ≡ first + e / 4096) }
    ensures device { result ≡ OpenFault.Device → ⊥ }
{
    match fault {
        ReadFault::Field(at) => OpenFault::Damaged(first + at as u64 / 4096),
        ReadFault::NoMemory => OpenFault::NoMemory,
    }
}
