//! What the placement and the cut ask of a list of items: its entries.

ghost use Rattle.std.specs.Prelude.{◌≡◌, ◌<◌, ◌^◌, IfOk, IsTrue, length, map};
ghost use Rattle.std.specs.List.{list_all};
ghost use Rattle.lt_terms.specs.Items.{is_valid};
ghost use Rattle.lt_tables.specs.Table.{newest};
ghost use Rattle.lt_tables.specs.Placement.{entry_of};
ghost use Rattle.lt_balance.specs.Entries.{AreEntries};

use lt_balance::Entry;
use lt_bucket::Item;
use lt_item::cost;
use lt_page::NoMemory;
use std::alloc::Global;

/// What the placement and the cut ask of these items: an entry for each, in their order.
pub fn entries_of(alloc: Global, items: &[Item]) -> Result<Vec<Entry>, NoMemory>
    ensures entries { IfOk result (λ entries. entries.items ≡ map entry_of items.now) }
    ensures valid { IfOk result (λ _. IsTrue (list_all is_valid items.now)) }

    // Of items in rank order, each key once, they may be placed and cut.
    ensures entries_are { IfOk result (λ entries. newest items.now ≡ items.now → length items.now < 2 ^ 32
        → AreEntries entries.items) }
{
    let mut entries = Vec::with_capacity(alloc, items.len())?;
    for item in items {
        entries.push(entry_of(item))?;
    }
    Ok(entries)
}

#[tactic(auto, unfolding(lt_item::specs::Parts::parts_of))]
fn entry_of(item: &Item) -> Entry
    ensures entry { result ≡ entry_of item.now }
    ensures valid { IsTrue (is_valid item.now) }
{
    let parts = item.parts();
    Entry {
        column: parts.column,
        suffix: parts.suffix,
        cost: cost(&item.view()),
    }
}
