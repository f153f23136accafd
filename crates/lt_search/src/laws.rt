//! What the filters that are kept answer.

ghost use Rattle.std.specs.Prelude.{◌≡◌, ℕ, List, Option};
ghost use Rattle.std.specs.List.{AllByRecursion};
ghost use Rattle.lt_terms.specs.Bytes.{Image};
ghost use Rattle.lt_format.specs.declared.geometry.Geometry.{Geometry};
ghost use Rattle.lt_format.specs.Trie.{Trie};
ghost use Rattle.lt_image.specs.Versions.{stops};
ghost use Rattle.lt_search.specs.Asking.{is_asked};
ghost use Rattle.lt_search.specs.Seen.{is_asked_on};
ghost use Rattle.lt_search.specs.Kept.{KeepsFilter, inner_tables};
ghost use Rattle.lt_search.specs.Seen.{seen_along};

/// With the filter blocks of the inner tables kept, a search sees what the image's own blocks tell,
/// whatever they hold.
pub fn kept_filters_see_the_same()
    ensures { (g : Geometry) (kept : List (Option (List ℕ))) (image : Image) (trie : Trie) (key : List ℕ)
        → AllByRecursion (KeepsFilter g kept image) (inner_tables g.levels trie)
        → seen_along (is_asked g kept image trie key) g image key (stops g.levels trie key)
        ≡ seen_along (is_asked_on g image trie key) g image key (stops g.levels trie key) }
{}
