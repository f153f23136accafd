//! Laws of filters.

ghost use Rattle.std.specs.Prelude.{◌≡◌, ℕ, List, [], ◌∷◌, ◌++◌, IsTrue};
ghost use Rattle.std.specs.List.{list_any};
ghost use Rattle.lt_terms.specs.Bytes.{IsBlock, zero_block, same_bytes};
ghost use Rattle.lt_terms.specs.Items.{Item};
ghost use Rattle.lt_terms.specs.Hashes.{home_column, key_positions};
ghost use Rattle.lt_tables.specs.Filter.{covers, filter_block, AddsPositions, HasFilters};

/// A page of zeros has the filters of no items.
pub fn filters_at_first()
    ensures { HasFilters [] zero_block }
{}

/// With the positions of an item added in its home column, a page has the filters of one item more.
pub fn filters_grow()
    ensures { (items : List Item) (item : Item) (old new : List ℕ) → HasFilters items old
        → AddsPositions old new (home_column item.key) (key_positions item.key)
        → HasFilters (items ++ item ∷ []) new }
{}

/// One page alone has the filters of a table's items: its filter block.
pub fn one_filter_block()
    ensures { (items : List Item) (page : List ℕ) → IsBlock page → HasFilters items page → page ≡ filter_block items }
{}

/// The filter block of some items covers each of their keys, in the key's home column.
pub fn filters_cover()
    ensures { (items : List Item) (key : List ℕ)
        → IsTrue (list_any (λ (item : Item). same_bytes item.key key) items)
        → IsTrue (covers (filter_block items) (home_column key) key) }
{}
