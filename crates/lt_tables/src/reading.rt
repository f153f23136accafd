//! Laws of items that were read, and of the map that versions make.

ghost use Rattle.std.specs.Prelude.{◌≡◌, ℕ, List, All, IsTrue};
ghost use Rattle.lt_terms.specs.Items.{Item, is_valid, value_at, empty_map, after_items};
ghost use Rattle.lt_tables.specs.Table.{newest, newest_of, value_of, table_items};

/// The items of a table are valid, whatever its blocks hold.
pub fn read_items_are_valid()
    ensures { (block : ℕ → List ℕ) → All (λ item. IsTrue (is_valid item)) (table_items block) }
{}

/// In the map that versions make, a key has the value of its newest version, and none where that is
/// a delete or there is none. The newest versions alone have the same newest version of each key.
pub fn newest_counts()
    ensures value { (versions : List Item) (key : List ℕ)
        → value_at (after_items empty_map versions) key ≡ value_of (newest_of key versions) }
    ensures kept { (versions : List Item) (key : List ℕ) → newest_of key (newest versions) ≡ newest_of key versions }
{}
