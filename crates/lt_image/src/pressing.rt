//! How pressed an image is for extents.

ghost use Rattle.std.specs.Prelude.{◌≡◌, ℕ, ◌*◌, ◌<◌, List, [], Ok, false, length, IsTrue};
ghost use Rattle.std.specs.List.{AllZip};
ghost use Rattle.lt_terms.specs.Items.{Item};
ghost use Rattle.lt_terms.specs.Bytes.{Image};
ghost use Rattle.lt_format.specs.declared.geometry.Geometry.{Geometry};
ghost use Rattle.lt_format.specs.declared.node_id.NodeId.{NodeId};
ghost use Rattle.lt_format.specs.Changes.{ChildChange, deal, fits, new_extents, rewrite};
ghost use Rattle.lt_format.specs.Snapshot.{Named};
ghost use Rattle.lt_format.specs.Trie.{Trie, groups_for, is_last_level, named, node_at};
ghost use Rattle.lt_image.specs.After.{Gets, SameExtents};
ghost use Rattle.lt_image.specs.Versions.{Opened, number_of, open_image, free_extents};
ghost use Rattle.lt_image.specs.Pressure.{flush_tables};
ghost use Rattle.lt_image.specs.Standing.{bad_blocks};
ghost use Rattle.lt_image.specs.Shares.{deal_shares, needed, rewrite_share};
ghost use Rattle.lt_image.specs.Needs.{is_exhausted, is_paced, is_settled, is_slack, node_items, waits};

/// How pressed an image is rests on its manifest and the extents that this names: images with the same
/// ones are settled, paced and exhausted together, and their nodes need as many extents, wait and have slack
/// together.
pub fn pressure_is_local()
    ensures settled { (m : Named) (old new : Image) → SameExtents m.geometry old new (named m.manifest.trie)
        → is_settled m new ≡ is_settled m old }
    ensures paced { (m : Named) (old new : Image) → SameExtents m.geometry old new (named m.manifest.trie)
        → is_paced m new ≡ is_paced m old }
    ensures exhausted { (m : Named) (old new : Image) → SameExtents m.geometry old new (named m.manifest.trie)
        → is_exhausted m new ≡ is_exhausted m old }
    ensures waiting { (m : Named) (old new : Image) (id : NodeId)
        → SameExtents m.geometry old new (named m.manifest.trie)
        → waits m new (id, node_at m.manifest.trie id) ≡ waits m old (id, node_at m.manifest.trie id) }
    ensures needed { (m : Named) (old new : Image) (id : NodeId)
        → SameExtents m.geometry old new (named m.manifest.trie)
        → let pile = node_at m.manifest.trie id in
        needed m.geometry.levels m.manifest.trie id (node_items m new pile)
        ≡ needed m.geometry.levels m.manifest.trie id (node_items m old pile) }
    ensures slack { (m : Named) (old new : Image) (id : NodeId)
        → SameExtents m.geometry old new (named m.manifest.trie)
        → is_slack m new (id, node_at m.manifest.trie id) ≡ is_slack m old (id, node_at m.manifest.trie id) }
{}

/// A last-level pile that was rewritten has no slack: it holds puts alone and no key twice, and a rewriting
/// would need what it has.
pub fn rewritten_piles_have_no_slack()
    ensures { (m : Named) (image : Image) (id : NodeId) (items : List Item) (tables groups : List ℕ)
        → IsTrue (is_last_level m.geometry.levels id) → length groups ≡ groups_for (length tables)
        → Gets m.geometry image (record { node = id; tables = tables; kept_groups = 0; groups = groups })
        (rewrite_share id items)
        → is_slack m image (id, record { base = length tables; tables = tables; groups = groups }) ≡ false }
{}

/// A deal and a rewriting that fit, and whose shares were given, newly name as many extents as they need.
pub fn moves_take_what_they_need()
    ensures deal { (g : Geometry) (image : Image) (levels : ℕ) (trie : Trie) (id : NodeId) (dropped : ℕ)
        (children : List ChildChange) (items : List Item) → IsTrue (fits levels trie (deal id dropped children))
        → AllZip (Gets g image) children (deal_shares trie id items)
        → length (new_extents (deal id dropped children)) ≡ needed levels trie id items }
    ensures rewrite { (g : Geometry) (image : Image) (levels : ℕ) (trie : Trie) (id : NodeId)
        (tables groups : List ℕ) (items : List Item) → IsTrue (fits levels trie (rewrite id tables groups))
        → Gets g image (record { node = id; tables = tables; kept_groups = 0; groups = groups })
        (rewrite_share id items)
        → length (new_extents (rewrite id tables groups)) ≡ needed levels trie id items }
{}

/// Where a flush of a sound image needs more extents than are free, the store has fewer extents than twice
/// its writes.
pub fn full_images_have_writes()
    ensures { (image : Image) (o : Opened) → open_image image ≡ Ok o → bad_blocks o image ≡ []
        → free_extents o.named < flush_tables o → o.named.manifest.header.extents < 2 * number_of o }
{}
