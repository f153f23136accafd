//! The memory table and std's map, given the same items.

use lt_mem::MemTable;
use lt_page::NoMemory;
use std::alloc::Global;
use std::collections::HashMap;

/// Puts so many keys of two bytes in, gets each, and answers how many were found.
pub fn found_in_table(table: &mut MemTable, count: u16) -> u16 {
    for number in 0..count {
        if table.bytes() <= 204_086 {
            table.put(&number.to_be_bytes(), &[]);
        }
    }
    let mut found = 0u16;
    for number in 0..count {
        if table.get(&number.to_be_bytes()).is_some() {
            found = found.saturating_add(1);
        }
    }
    found
}

/// The same with a map of std.
pub fn found_in_map(
    alloc: Global,
    map: &mut HashMap<Vec<u8>, Vec<u8>>,
    count: u16,
) -> Result<u16, NoMemory> {
    for number in 0..count {
        let key = Vec::from_slice(alloc, &number.to_be_bytes())?;
        map.insert(key, Vec::new(alloc))?;
    }
    let mut found = 0u16;
    for number in 0..count {
        if map.get(number.to_be_bytes().as_slice()).is_some() {
            found = found.saturating_add(1);
        }
    }
    Ok(found)
}
