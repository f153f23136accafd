//! The parts of a key's hash.

ghost use Rattle.std.specs.Prelude.{◌≡◌, ◌+◌, ◌<◌, ◌≤◌};
ghost use Rattle.lt_terms.specs.Bytes.{u16_at, u32_at};
ghost use Rattle.lt_terms.specs.Hashes.{digit_of, position_of};
ghost use Rattle.lt_item.specs.Parts.{parts_of, IsInRange};

use sha1::Sha1;

/// The SHA-1 of a key, and what is read off it. Bit 0 is the highest bit of the hash's first byte.
#[derive(Clone, Copy, Debug, PartialEq, Eq)]
pub struct Parts {
    /// The whole hash.
    pub hash: [u8; 20],
    /// Bits `3i` to `3i + 2`: which child a node at level `i` hands the key to.
    pub digits: [u8; 4],
    /// The key's home column, the high six bits of byte 2.
    pub column: u8,
    /// Bytes 4 to 7.
    pub suffix: u32,
    /// The key's bits in the filter of its home column: the two bytes from `8 + 2j` on, modulo 512.
    pub positions: [u16; 6],
}

/// The parts of a key's hash, for any bytes.
#[tactic(auto, unfolding(crate::specs::Parts::parts_of, lt_terms::specs::Hashes::key_hash))]
pub fn parts_of(key: &[u8]) -> Parts
    ensures exact { result ≡ parts_of key.now }
    ensures in_range { IsInRange result }
{
    let hash = Sha1::digest(key);
    Parts {
        hash,
        digits: [
            digit(&hash, 0),
            digit(&hash, 1),
            digit(&hash, 2),
            digit(&hash, 3),
        ],
        column: hash[2] >> 2,
        suffix: u32::from_be_bytes([hash[4], hash[5], hash[6], hash[7]]),
        positions: [
            position(&hash, 0),
            position(&hash, 1),
            position(&hash, 2),
            position(&hash, 3),
            position(&hash, 4),
            position(&hash, 5),
        ],
    }
}

fn digit(hash: &[u8; 20], level: usize) -> u8
    requires { level < 4 }
    ensures { result ≡ digit_of hash.now level }
{
    (number(hash, 0) >> (13 - 3 * level) & 7) as u8
}

fn position(hash: &[u8; 20], j: usize) -> u16
    requires { j < 6 }
    ensures { result ≡ position_of hash.now j }
{
    number(hash, 8 + 2 * j) % 512
}

fn number(hash: &[u8; 20], at: usize) -> u16
    requires { at + 2 ≤ 20 }
    ensures { result ≡ u16_at hash.now at }
{
    u16::from_be_bytes([hash[at], hash[at + 1]])
}
