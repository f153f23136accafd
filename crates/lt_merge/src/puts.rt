//! The puts among items.

ghost use Rattle.std.specs.Prelude.{◌≡◌};
ghost use Rattle.lt_tables.specs.Table.{is_put, without_deletes};

use lt_bucket::Item;
use lt_terms::Kind;

/// The puts among the items, in their order. Takes no memory.
pub fn without_deletes(mut items: Vec<Item>) -> Vec<Item>
    ensures { result.items ≡ without_deletes items.items }
{
    items.retain(is_put);
    items
}

/// Whether an item is a put.
pub fn is_put(item: &Item) -> bool
    ensures { result ≡ is_put item.now }
{
    match item.view().kind {
        Kind::Put => true,
        Kind::Delete => false,
    }
}
