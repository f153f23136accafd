//! What a change makes of each node.

ghost use Rattle.std.specs.Prelude.{◌≡◌, ℕ, ◌≤◌, List, All, IsTrue, length, drop, false};
ghost use Rattle.lt_format.specs.declared.node_id.NodeId.{NodeId};
ghost use Rattle.lt_format.specs.Trie.{Node, Trie, root, node_at};
ghost use Rattle.lt_format.specs.Changes.{Change, ChildChange, flush, deal, rewrite, fits, after_change, appended};
ghost use Rattle.lt_format.specs.Changes.{child_after};
ghost use Rattle.lt_node.specs.Changing.{sets};

/// After a flush the root's pile has the new tables behind its old ones.
pub fn flushes_grow_the_root()
    ensures { (trie : Trie) (tables : List ℕ) → 1 ≤ length tables
        → node_at (after_change trie (flush tables)) root ≡ appended (node_at trie root) tables }
{}

/// After a deal each child that it names has its new tables behind its old ones, the groups that
/// stay and the new ones.
pub fn deals_grow_children()
    ensures { (levels : ℕ) (trie : Trie) (node : NodeId) (dropped : ℕ) (children : List ChildChange)
        → IsTrue (fits levels trie (deal node dropped children))
        → All (λ c. node_at (after_change trie (deal node dropped children)) c.node
        ≡ child_after (node_at trie c.node) c) children }
{}

/// After a deal the node has lost its oldest tables.
pub fn deals_take_the_oldest()
    ensures { (trie : Trie) (node : NodeId) (dropped : ℕ) (children : List ChildChange)
        → (node_at (after_change trie (deal node dropped children)) node).tables
        ≡ drop dropped (node_at trie node).tables }
{}

/// After a rewriting the node has the new pile and the new groups.
pub fn rewritings_replace_the_node()
    ensures { (levels : ℕ) (trie : Trie) (node : NodeId) (tables groups : List ℕ)
        → IsTrue (fits levels trie (rewrite node tables groups))
        → node_at (after_change trie (rewrite node tables groups)) node
        ≡ record { base = length tables; tables = tables; groups = groups } }
{}

/// A change leaves each node that it does not set.
pub fn other_nodes_stay()
    ensures { (trie : Trie) (change : Change) (id : NodeId) → sets change id ≡ false
        → node_at (after_change trie change) id ≡ node_at trie id }
{}
