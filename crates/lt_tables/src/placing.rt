//! Laws of placements and cuts.

ghost use Rattle.std.specs.Prelude.{◌≡◌, ◌≤◌, List, [], ◌∷◌, All, Some, IsTrue, replicate};
ghost use Rattle.std.specs.List.{flat_map};
ghost use Rattle.lt_terms.specs.Items.{Item, is_valid};
ghost use Rattle.lt_tables.specs.declared.Entry.{Entry};
ghost use Rattle.lt_tables.specs.Bucket.{capacity};
ghost use Rattle.lt_tables.specs.Placement.{placement, keeps_all};
ghost use Rattle.lt_tables.specs.Table.{newest};
ghost use Rattle.lt_tables.specs.Cut.{cut, IsTable};

/// The empty list has a placement, in which no column sends.
pub fn nothing_to_send()
    ensures { placement [] ≡ Some (replicate 64 keeps_all) }
{}

/// One entry alone has a placement if a bucket can hold it; no column sends.
pub fn one_stays()
    ensures { (e : Entry) → e.cost ≤ capacity → placement (e ∷ []) ≡ Some (replicate 64 keeps_all) }
{}

/// The tables of a cut, one after another, are the list.
pub fn joins_again()
    ensures { (items : List Item) → flat_map (λ table. table) (cut items) ≡ items }
{}

/// Each table of a cut of valid items holds an item and has a placement.
pub fn tables_are_placed()
    ensures { (items : List Item) → All (λ item. IsTrue (is_valid item)) items → All IsTable (cut items) }
{}

/// The newest items of versions are their own newest, in rank order, and so are those of each table
/// of a cut of them. The tables of a cut of valid items have valid items.
pub fn cuts_keep_ranks()
    ensures newest { (versions : List Item) → newest (newest versions) ≡ newest versions }
    ensures ranked { (items : List Item) → newest items ≡ items → All (λ table. newest table ≡ table) (cut items) }
    ensures valid { (items : List Item) → All (λ item. IsTrue (is_valid item)) items
        → All (λ table. All (λ item. IsTrue (is_valid item)) table) (cut items) }
{}
