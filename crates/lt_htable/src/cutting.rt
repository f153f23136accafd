//! The tables of a list.

ghost use Rattle.std.specs.Prelude.{◌≡◌, ◌<◌, ◌≤◌, ◌^◌, All, IfOk, length, map};
ghost use Rattle.lt_tables.specs.Cut.{cut, table_total};
ghost use Rattle.lt_tables.specs.Table.{newest};
ghost use Rattle.lt_htable.specs.Cutting.{IsPart};

use super::summary::entries_of;
use lt_balance::cut;
use lt_bucket::Item;
use lt_page::NoMemory;
use std::alloc::Global;

/// The tables that a list in rank order is cut into.
pub fn tables_of(alloc: Global, items: &[Item]) -> Result<Vec<&[Item]>, NoMemory>
    requires ranked { newest items.now ≡ items.now }
    requires few { length items.now < 2 ^ 32 }
    ensures tables { IfOk result (λ tables. map (λ table. table.now) tables.items ≡ cut items.now) }
    ensures parts { IfOk result (λ tables. All (λ table. IsPart table.now) tables.items) }
    ensures count { IfOk result (λ tables. length tables.items ≡ table_total items.now) }
    ensures fewer { IfOk result (λ tables. length tables.items ≤ length items.now) }
    ensures some { IfOk result (λ tables. 0 < length items.now → 0 < length tables.items) }
{
    let entries = entries_of(alloc, items)?;
    let counts = cut(alloc, &entries)?;
    let mut tables = Vec::with_capacity(alloc, counts.len())?;
    let mut rest = items;
    for count in &counts {
        let (table, behind) = rest.split_at(*count);
        tables.push(table)?;
        rest = behind;
    }
    Ok(tables)
}
