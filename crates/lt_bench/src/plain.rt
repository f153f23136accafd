//! The cut as its rule says it, each front placed anew.

ghost use Rattle.std.specs.Prelude.{◌<◌, ◌≤◌, IfOk, length};
ghost use Rattle.lt_balance.specs.Entries.{AreEntries};

use lt_balance::{Entry, place};
use lt_page::NoMemory;
use std::alloc::Global;

/// How many entries each table takes. It takes time in the square of a table's entries.
pub fn plain_cut(alloc: Global, entries: &[Entry]) -> Result<Vec<usize>, NoMemory>
    requires { AreEntries entries.now }
{
    let mut counts = Vec::new(alloc);
    let mut rest = entries;
    while !rest.is_empty() {
        let count = first_count(alloc, rest)?;
        counts.push(count)?;
        rest = rest.split_at(count).1;
    }
    Ok(counts)
}

/// The least count at which one entry more has no placement, or all.
fn first_count(alloc: Global, entries: &[Entry]) -> Result<usize, NoMemory>
    requires some { 0 < length entries.now }
    requires entries { AreEntries entries.now }
    ensures some { IfOk result (λ count. 0 < count) }
    ensures within { IfOk result (λ count. count ≤ length entries.now) }
{
    for count in 1..entries.len() {
        let (front, _) = entries.split_at(count + 1);
        if place(alloc, front)?.is_none() {
            return Ok(count);
        }
    }
    Ok(entries.len())
}
