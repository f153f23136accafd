//! The newest item of each key.

ghost use Rattle.std.specs.Prelude.{◌≡◌, ◌+◌, ◌≤◌, [], ◌++◌, Some, IfOk, OnOk, OnErr, length, map, slice_index_or};
ghost use Rattle.std.specs.Prelude.{vec_len, vec_capacity, None};
ghost use Rattle.std.specs.List.{flat_map};
ghost use Rattle.lt_tables.specs.Table.{newest};
ghost use Rattle.lt_merge.specs.Places.{AreApart, AreFilled};

use super::places::{Places, places_of};
use lt_bucket::Item;
use lt_page::NoMemory;
use std::alloc::Global;
use std::mem;

/// The newest item of each key, in rank order; the lists come oldest first. All memory is taken before
/// an item is moved, and no item is copied.
pub fn newest(alloc: Global, lists: &mut Vec<Vec<Item>>) -> Result<Vec<Item>, NoMemory>
    ensures newest { IfOk result (λ items.
        items.items ≡ newest (flat_map (λ list. list.items) lists.old.items)) }
    ensures emptied { OnOk result (lists.new.items ≡ []) }
    ensures kept { OnErr result (lists.new.items ≡ lists.old.items) }
{
    let Places { order, count } = places_of(alloc, lists)?;
    let mut slots = Vec::with_capacity(alloc, count)?;
    let items = Vec::with_capacity(alloc, order.len())?;
    for list in mem::replace(lists, Vec::new(alloc)) {
        fill(&mut slots, list);
    }
    Ok(gathered(items, slots, &order))
}

/// Moves the items of a list behind the others. There is room.
fn fill(slots: &mut Vec<Option<Item>>, list: Vec<Item>)
    requires { vec_len slots.old + vec_len list ≤ vec_capacity slots.old }
    ensures slots { slots.new.items ≡ slots.old.items ++ map Some list.items }
    ensures len { vec_len slots.new ≡ vec_len slots.old + vec_len list }
    ensures capacity { vec_capacity slots.new ≡ vec_capacity slots.old }
{
    for item in list {
        slots.push_reserved(Some(item));
    }
}

/// Moves the items at these places, one after another, to an empty list with room for them.
fn gathered(mut items: Vec<Item>, mut slots: Vec<Option<Item>>, order: &[usize]) -> Vec<Item>
    requires empty { items.items ≡ [] }
    requires room { length order.now ≤ vec_capacity items }
    requires apart { AreApart order.now }
    requires filled { AreFilled slots.items order.now }
    ensures { map Some result.items ≡ map (λ p. slice_index_or slots.items p None) order.now }
{
    for place in order {
        if let Some(item) = slots[*place].take() {
            items.push_reserved(item);
        }
    }
    items
}
