//! Laws of tries and their changes.

ghost use Rattle.std.specs.Prelude.{ℕ, ◌≤◌, IsTrue, length};
ghost use Rattle.lt_format.specs.declared.node_id.NodeId.{NodeId};
ghost use Rattle.lt_format.specs.Trie.{Node, Trie, node_extents, named, with_node, is_node, is_shaped, all_below};
ghost use Rattle.lt_format.specs.Trie.{IsTrie};
ghost use Rattle.lt_format.specs.Changes.{Change, new_extents, are_new, fits, after_change};

/// A change that fits a trie, and whose new extents are extents of the store, leaves a trie.
pub fn changes_keep_tries()
    ensures { (levels extents : ℕ) (trie : Trie) (change : Change) → 2 ≤ levels → IsTrie levels extents trie
        → IsTrue (fits levels trie change) → IsTrue (all_below extents (new_extents change))
        → IsTrie levels extents (after_change trie change) }
{}

/// A node may be set to new extents, if it has the number of groups that its level wants.
pub fn nodes_may_be_set()
    ensures { (levels extents : ℕ) (trie : Trie) (id : NodeId) (node : Node) → IsTrie levels extents trie
        → IsTrue (is_node levels id) → IsTrue (is_shaped levels extents id node)
        → IsTrue (are_new extents trie (node_extents node)) → IsTrie levels extents (with_node trie id node) }
{}

/// A trie names no more extents than the store has.
pub fn extents_suffice()
    ensures { (levels extents : ℕ) (trie : Trie) → IsTrie levels extents trie → length (named trie) ≤ extents }
{}
