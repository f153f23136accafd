//! The numbers that stand in bytes, big-endian.

ghost use Rattle.std.specs.Prelude.{◌≡◌};
ghost use Rattle.std.specs.Int.{w8, w16, w32, w64};
ghost use Rattle.lt_manifest.specs.Area.{number_at};

/// The number in the byte at a place, if there is one.
pub fn number_u8(bytes: &[u8], at: usize) -> Option<u8>
    ensures { result ≡ number_at bytes.now w8 at }
{
    bytes.get(at).copied()
}

/// The number in the two bytes from a place on, if there are two.
pub fn number_u16(bytes: &[u8], at: usize) -> Option<u16>
    ensures { result ≡ number_at bytes.now w16 at }
{
    if bytes.len() < 2 || at > bytes.len() - 2 {
        return None;
    }
    Some(u16::from_be_bytes([bytes[at], bytes[at + 1]]))
}

/// The number in the four bytes from a place on, if there are four.
pub fn number_u32(bytes: &[u8], at: usize) -> Option<u32>
    ensures { result ≡ number_at bytes.now w32 at }
{
    if bytes.len() < 4 || at > bytes.len() - 4 {
        return None;
    }
    Some(u32::from_be_bytes([bytes[at], bytes[at + 1], bytes[at + 2], bytes[at + 3]]))
}

/// The number in the eight bytes from a place on, if there are eight.
pub fn number_u64(bytes: &[u8], at: usize) -> Option<u64>
    ensures { result ≡ number_at bytes.now w64 at }
{
    if bytes.len() < 8 || at > bytes.len() - 8 {
        return None;
    }
    Some(u64::from_be_bytes([
        bytes[at],
        bytes[at + 1],
        bytes[at + 2],
        bytes[at + 3],
        bytes[at + 4],
        bytes[at + 5],
        bytes[at + 6],
        bytes[at + 7],
    ]))
}
