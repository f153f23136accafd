//! Laws of marks and of the nodes that are left.

ghost use Rattle.std.specs.Prelude.{◌≡◌, ℕ, ◌||◌, ◌&&◌, not, Bool, List, None, IsFalse, IsTrue, length};
ghost use Rattle.std.specs.List.{list_any};
ghost use Rattle.lt_terms.specs.Bytes.{Image};
ghost use Rattle.lt_format.specs.declared.node_id.NodeId.{NodeId};
ghost use Rattle.lt_format.specs.Snapshot.{Named};
ghost use Rattle.lt_format.specs.Trie.{IsTrie, is_node, same_node};
ghost use Rattle.lt_image.specs.Needs.{is_exhausted, is_paced, is_settled, is_twice_full};
ghost use Rattle.lt_pace.specs.Candidates.{AreSlackless, PassedOverWait, next_full, next_slack};
ghost use Rattle.lt_pace.specs.Marks.{is_marked, marked, most_nodes, unmarked};

/// Each node has a mark of its own: with one more node marked, or one fewer, all others are as before.
pub fn marks_are_apart()
    ensures marked { (marks : List Bool) (a b : NodeId) → length marks ≡ most_nodes
        → IsTrue (is_node 5 a) → IsTrue (is_node 5 b)
        → is_marked (marked marks a) b ≡ (same_node a b || is_marked marks b) }
    ensures unmarked { (marks : List Bool) (a b : NodeId) → length marks ≡ most_nodes
        → IsTrue (is_node 5 a) → IsTrue (is_node 5 b)
        → is_marked (unmarked marks a) b ≡ (not (same_node a b) && is_marked marks b) }
{}

/// Where the nodes that are passed over wait, and no full pile is left, the image is settled. Where no
/// last-level pile that may have slack is left either, it is exhausted.
pub fn nothing_left()
    ensures settled { (m : Named) (image : Image) (extents : ℕ) (passed_over : List Bool)
        → IsTrie m.geometry.levels extents m.manifest.trie → PassedOverWait m image passed_over
        → next_full m.geometry.levels m.manifest.trie passed_over ≡ None
        → IsTrue (is_settled m image) }
    ensures exhausted { (m : Named) (image : Image) (extents : ℕ) (passed_over without_slack : List Bool)
        → IsTrie m.geometry.levels extents m.manifest.trie → PassedOverWait m image passed_over
        → AreSlackless m image without_slack
        → next_full m.geometry.levels m.manifest.trie passed_over ≡ None
        → next_slack m.geometry.levels m.manifest.trie passed_over without_slack ≡ None
        → IsTrue (is_exhausted m image) }
{}

/// An image is paced where it is settled, and where no pile has twice as many tables as make it full.
pub fn images_are_paced()
    ensures settled { (m : Named) (image : Image) → IsTrue (is_settled m image) → IsTrue (is_paced m image) }
    ensures small { (m : Named) (image : Image)
        → IsFalse (list_any (is_twice_full m.geometry.levels) m.manifest.trie) → IsTrue (is_paced m image) }
{}
