//! What a group's blocks answer.

ghost use Rattle.std.specs.Prelude.{◌≡◌, ℕ, ◌<◌, List, [], length, slice_index_or};
ghost use Rattle.std.specs.List.{AllByRecursion};
ghost use Rattle.lt_tables.specs.Filter.{covers, group_block};

/// In the block of a column the filter at a table's place answers for each key as the table's own filter of
/// that column.
pub fn groups_cover()
    ensures { (pages : List (List ℕ)) (c i : ℕ) (key : List ℕ) → AllByRecursion (λ page. length page ≡ 4096) pages
        → c < 64 → i < length pages
        → covers (group_block pages c) i key ≡ covers (slice_index_or pages i []) c key }
{}
