//! Where the newest item of each key stands.

ghost use Rattle.std.specs.Prelude.{◌≡◌, ◌++◌, Some, IfOk, OnOk, length, map, slice_get};
ghost use Rattle.std.specs.List.{flat_map};
ghost use Rattle.lt_tables.specs.Table.{newest};
ghost use Rattle.lt_merge.specs.Places.{PointTo};

use lt_bucket::Item;
use lt_item::Rank;
use lt_page::NoMemory;
use std::alloc::Global;
use std::collections::BTreeMap;

/// The places of the newest items among all, in rank order, and how many items there are in all.
#[derive(Drop)]
pub(super) struct Places {
    pub order: Vec<usize>,
    pub count: usize,
}

/// The places of the newest items of these lists, one behind another.
pub(super) fn places_of(alloc: Global, lists: &[Vec<Item>]) -> Result<Places, NoMemory>
    ensures count { IfOk result (λ places.
        places.count ≡ length (flat_map (λ list. list.items) lists.now)) }
    ensures newest { let all = flat_map (λ list. list.items) lists.now in
        IfOk result (λ places. map (λ p. slice_get all p) places.order.items ≡ map Some (newest all)) }
{
    let all = borrowed(alloc, lists)?;
    let ranked = by_rank(alloc, &all)?;
    Ok(Places {
        order: order_of(alloc, &ranked)?,
        count: all.len(),
    })
}

/// The items of these lists, one behind another.
fn borrowed<'a>(alloc: Global, lists: &'a [Vec<Item>]) -> Result<Vec<&'a Item>, NoMemory>
    ensures { IfOk result (λ all.
        map (λ item. item.now) all.items ≡ flat_map (λ list. list.items) lists.now) }
{
    let mut all = Vec::new(alloc);
    for list in lists {
        push_all(&mut all, list)?;
    }
    Ok(all)
}

fn push_all<'a>(all: &mut Vec<&'a Item>, list: &'a [Item]) -> Result<(), NoMemory>
    ensures { OnOk result (map (λ item. item.now) all.new.items
        ≡ map (λ item. item.now) all.old.items ++ list.now) }
{
    for item in list {
        all.push(item)?;
    }
    Ok(())
}

/// The place of the newest item of each key, under its rank.
fn by_rank<'a>(alloc: Global, all: &[&'a Item]) -> Result<BTreeMap<Rank<'a>, usize>, NoMemory>
    ensures { IfOk result (λ newest.
        PointTo (map (λ item. item.now) all.now) newest.entries (length all.now)) }
{
    let mut newest = BTreeMap::new(alloc);
    for (place, item) in all.iter().enumerate() {
        newest.insert(Rank::of(item.view().key, item.parts()), place)?;
    }
    Ok(newest)
}

fn order_of(alloc: Global, ranked: &BTreeMap<Rank<'_>, usize>) -> Result<Vec<usize>, NoMemory>
    ensures { IfOk result (λ order. order.items ≡ map (λ entry. entry.1) ranked.now.entries) }
{
    Ok(ranked.values().copied().collect(alloc)?)
}
