//! What a change frees.

ghost use Rattle.std.specs.Prelude.{◌≡◌, ◌≤◌, ◌&&◌, ◌||◌, ℕ, not, IsTrue};
ghost use Rattle.lt_terms.specs.Bytes.{is_in};
ghost use Rattle.lt_format.specs.Changes.{Change, after_change, fits, freed, new_extents};
ghost use Rattle.lt_format.specs.Trie.{IsTrie, Trie, all_distinct, named};

/// The extents that are named after a change that fits are the new ones, and those that were named and are
/// not freed. Only extents that were named are freed, each once.
pub fn changes_free()
    ensures named { (levels extents : ℕ) (trie : Trie) (change : Change) (x : ℕ) → 2 ≤ levels
        → IsTrie levels extents trie → IsTrue (fits levels trie change)
        → is_in x (named (after_change trie change))
        ≡ ((is_in x (named trie) && not (is_in x (freed trie change))) || is_in x (new_extents change)) }
    ensures freed { (trie : Trie) (change : Change) (x : ℕ) → IsTrue (is_in x (freed trie change))
        → IsTrue (is_in x (named trie)) }
    ensures once { (levels extents : ℕ) (trie : Trie) (change : Change) → 2 ≤ levels → IsTrie levels extents trie
        → IsTrue (fits levels trie change) → IsTrue (all_distinct (freed trie change)) }
{}
