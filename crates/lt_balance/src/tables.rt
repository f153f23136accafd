//! Where a list in rank order is cut into tables.

ghost use Rattle.std.specs.Prelude.{◌≡◌, ◌<◌, ◌≤◌, false, IfOk, List, length};
ghost use Rattle.lt_tables.specs.declared.Entry.{Entry};
ghost use Rattle.lt_tables.specs.Cut.{table_count, cut_counts};
ghost use Rattle.lt_tables.specs.Placement.{has_placement};
ghost use Rattle.lt_balance.specs.Columns.{AreColumns, NoneSends};
ghost use Rattle.lt_balance.specs.Entries.{AreEntries};

use super::columns::{CAPACITY, COLUMNS, Column};
use super::sendings::sendings_of;
use lt_page::NoMemory;
use lt_tables::Entry;
use std::alloc::Global;

/// How many entries each table of a list takes: one more would leave it without a placement.
///
/// It tries each front of a table on the 64 columns alone, as entries come in: for each entry one step,
/// and where a column sends 64 more, and at most 64 for each column that sends.
pub fn cut(alloc: Global, entries: &[Entry]) -> Result<Vec<usize>, NoMemory>
    requires { AreEntries entries.now }
    ensures { IfOk result (λ counts. counts.items ≡ cut_counts entries.now) }
{
    let mut counts = Vec::new(alloc);
    let mut rest = entries;
    while !rest.is_empty() {
        let count = first_count(rest);
        counts.push(count)?;
        rest = rest.split_at(count).1;
    }
    Ok(counts)
}

/// How many entries the first table takes.
fn first_count(entries: &[Entry]) -> usize
    requires some { 0 < length entries.now }
    requires entries { AreEntries entries.now }
    ensures count { result ≡ table_count entries.now }
    ensures some { 0 < result }
    ensures within { result ≤ length entries.now }
{
    let mut columns = [Column::EMPTY; COLUMNS];
    let mut sends = false;
    for (count, entry) in entries.iter().enumerate() {
        let c = entry.column as usize;
        columns[c] = columns[c].with(entry);
        sends |= columns[c].load > CAPACITY;
        if !fit(&columns, sends) {
            return count;
        }
    }
    entries.len()
}

/// Whether the entries of these columns have a placement, as they do where no column sends.
fn fit(columns: &[Column; COLUMNS], sends: bool) -> bool
    requires { sends ≡ false → NoneSends columns.now }
    ensures { (es : List Entry) → AreEntries es → AreColumns es columns.now → result ≡ has_placement es }
{
    if !sends {
        return true;
    }
    sendings_of(columns).is_some()
}
