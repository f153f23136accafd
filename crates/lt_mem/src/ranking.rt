//! The newest item of each key, in rank order.

ghost use Rattle.std.specs.Prelude.{◌≡◌, IfOk, IsTrue};
ghost use Rattle.std.specs.List.{list_all};
ghost use Rattle.lt_terms.specs.Items.{is_valid};
ghost use Rattle.lt_tables.specs.Table.{newest, ranked};
ghost use Rattle.lt_mem.specs.Ranking.{ranked_entries, AreRanked};

use lt_bucket::{Item, Items};
use lt_item::{ItemView, Rank, parts_of};
use lt_page::NoMemory;
use std::alloc::Global;
use std::collections::BTreeMap;

/// Copies of the newest items of each key, in rank order.
pub fn newest_items(alloc: Global, items: Items<'_>) -> Result<Vec<Item>, NoMemory>
    requires { IsTrue (list_all is_valid items) }
    ensures { IfOk result (λ batch. batch.items ≡ newest items.entry) }
{
    let newest = by_rank(alloc, items)?;
    let mut batch = Vec::with_capacity(alloc, newest.len())?;
    for (rank, item) in newest.iter() {
        batch.push(Item::with_parts(alloc, item, rank.parts())?)?;
    }
    Ok(batch)
}

fn by_rank<'a>(
    alloc: Global,
    items: Items<'a>,
) -> Result<BTreeMap<Rank<'a>, ItemView<'a>>, NoMemory>
    requires { IsTrue (list_all is_valid items) }
    ensures newest { IfOk result (λ map. ranked_entries map.entries ≡ ranked items.entry) }
    ensures valid { IfOk result (λ map. AreRanked map.entries) }
{
    let mut newest = BTreeMap::new(alloc);
    for item in items {
        newest.insert(Rank::of(item.key, &parts_of(item.key)), item)?;
    }
    Ok(newest)
}
