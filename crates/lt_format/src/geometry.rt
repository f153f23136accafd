//! Which block holds what.

ghost use Rattle.std.specs.Prelude.{◌≡◌};

/// How many levels the trie has, and how many slots a log area. Valid with 2 to 5 levels and 1 to
/// 512 slots.
#[derive(Clone, Copy, Debug, PartialEq, Eq)]
pub struct Geometry {
    pub levels: u8,
    pub slots: u16,
}

impl Geometry {
    ghost use Rattle.lt_format.specs.Layout.{blocks_needed, area_block, edit_gate, log_gate, extent_block};

    /// How many blocks a store with so many extents needs.
    pub fn needed(&self, extents: u32) -> u64
        ensures { result ≡ blocks_needed self.now extents }
    {
        self.extent(extents)
    }

    /// The first block of a manifest area, 0 or 1.
    pub fn area(&self, area: u8) -> u64
        ensures { result ≡ area_block area }
    {
        2 + 433 * u64::from(area)
    }

    /// The gate of an edit slot below 64 of a manifest area. Its content is the next block.
    pub fn edit_gate(&self, area: u8, slot: u8) -> u64
        ensures { result ≡ edit_gate area slot }
    {
        self.area(area) + 305 + 2 * u64::from(slot)
    }

    /// The gate of a log slot of a log area, 0 or 1. Its content is the next block.
    pub fn log_gate(&self, area: u8, slot: u16) -> u64
        ensures { result ≡ log_gate self.now area slot }
    {
        868 + 2 * u64::from(self.slots) * u64::from(area) + 2 * u64::from(slot)
    }

    /// The first of the 65 blocks of an extent.
    pub fn extent(&self, number: u32) -> u64
        ensures { result ≡ extent_block self.now number }
    {
        868 + 4 * u64::from(self.slots) + 65 * u64::from(number)
    }
}
