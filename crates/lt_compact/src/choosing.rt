//! Which of a job's newest items a node gets, and how they are cut into tables.

ghost use Rattle.std.specs.Prelude.{◌≡◌, ◌≤◌, IfOk, IsTrue, map};
ghost use Rattle.std.specs.List.{list_all};
ghost use Rattle.lt_terms.specs.Items.{is_valid};
ghost use Rattle.lt_tables.specs.Cut.{cut_counts};
ghost use Rattle.lt_tables.specs.Placement.{entry_of};
ghost use Rattle.lt_balance.specs.Entries.{AreEntries};
ghost use Rattle.lt_compact.specs.Choosing.{IsWithin, chosen, is_chosen};
ghost use Rattle.lt_compact.specs.Sharing.{AreRanked};

use lt_balance::{Entry, cut};
use lt_bucket::Item;
use lt_item::cost;
use lt_merge::{digit_of, is_put};
use lt_page::NoMemory;
use std::alloc::Global;

/// Which of the items a node gets.
#[derive(Clone, Copy)]
pub(super) enum Choice {
    /// Those with this digit at this level.
    Digit { level: u8, digit: u8 },
    Puts,
}

/// How many of the chosen items each of their tables takes. The items are in rank order, each key once.
pub(super) fn counts_of(
    alloc: Global,
    items: &[Item],
    choice: Choice,
) -> Result<Vec<usize>, NoMemory>
    requires level { IsWithin choice }
    requires items { AreRanked items.now }
    ensures counts { IfOk result (λ counts.
        counts.items ≡ cut_counts (map entry_of (chosen choice items.now))) }
    ensures valid { IfOk result (λ _. IsTrue (list_all is_valid items.now)) }
{
    let entries = entries_of(alloc, items, choice)?;
    Ok(cut(alloc, &entries)?)
}

/// The entries of the chosen items.
fn entries_of(alloc: Global, items: &[Item], choice: Choice) -> Result<Vec<Entry>, NoMemory>
    requires level { IsWithin choice }
    ensures entries { IfOk result (λ entries. entries.items ≡ map entry_of (chosen choice items.now)) }
    ensures valid { IfOk result (λ _. IsTrue (list_all is_valid items.now)) }
{
    let mut entries = Vec::new(alloc);
    for item in items {
        let entry = entry_of(item);
        if is_chosen(item, choice) {
            entries.push(entry)?;
        }
    }
    Ok(entries)
}

/// What the cut asks of an item.
#[tactic(auto, unfolding(lt_item::specs::Parts::parts_of))]
fn entry_of(item: &Item) -> Entry
    ensures entry { result ≡ entry_of item.now }
    ensures valid { IsTrue (is_valid item.now) }
{
    let parts = item.parts();
    Entry {
        column: parts.column,
        suffix: parts.suffix,
        cost: cost(&item.view()),
    }
}

fn is_chosen(item: &Item, choice: Choice) -> bool
    requires { IsWithin choice }
    ensures { result ≡ is_chosen choice item.now }
{
    match choice {
        Choice::Digit { level, digit } => digit_of(item, level) == digit,
        Choice::Puts => is_put(item),
    }
}
