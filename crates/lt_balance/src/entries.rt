//! What a placement and a cut ask of their entries.

ghost use Rattle.std.specs.Prelude.{◌↔◌, ℕ, List, IsTrue, take, drop};
ghost use Rattle.lt_tables.specs.declared.Entry.{Entry};
ghost use Rattle.lt_balance.specs.Entries.{AreEntries};

use super::columns::{CAPACITY, COLUMNS};
use lt_tables::Entry;

/// Whether entries may be placed and cut: their columns are below 64, a bucket can hold each, their
/// suffixes do not fall, and they are fewer than 2^32.
pub fn are_entries(entries: &[Entry]) -> bool
    ensures { IsTrue result ↔ AreEntries entries.now }
{
    for (i, entry) in entries.iter().enumerate() {
        if usize::from(entry.column) >= COLUMNS || u64::from(entry.cost) > CAPACITY {
            return false;
        }
        if i > 0 && entries[i - 1].suffix > entry.suffix {
            return false;
        }
    }
    entries.len() < 1 << 32
}

/// A front of entries, and the rest behind it, may be placed and cut too.
pub fn parts_are_entries()
    ensures { (n : ℕ) (es : List Entry) → AreEntries es → AreEntries (take n es) × AreEntries (drop n es) }
{}
