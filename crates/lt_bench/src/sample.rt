//! Entries to time calls on.

use lt_balance::Entry;
use lt_page::NoMemory;
use std::alloc::Global;

/// Entries by suffix, spread over the columns, of 30 to 157 bytes each.
pub fn sample_entries(alloc: Global, count: u32) -> Result<Vec<Entry>, NoMemory> {
    let mut entries = Vec::with_capacity(alloc, count as usize)?;
    let step = u32::MAX / count.max(1);
    for i in 0..count {
        let spread = i.wrapping_mul(2_654_435_761);
        entries.push(Entry {
            column: (spread >> 26) as u8,
            suffix: i.wrapping_mul(step),
            cost: 30 + (spread >> 8 & 127) as u16,
        })?;
    }
    Ok(entries)
}
