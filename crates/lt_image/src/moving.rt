//! What a deal and a rewriting leave.

ghost use Rattle.std.specs.Prelude.{◌≡◌, ℕ, ◌≤◌, List, Ok, IsTrue, length, take};
ghost use Rattle.std.specs.List.{AllZip};
ghost use Rattle.lt_terms.specs.Bytes.{Image};
ghost use Rattle.lt_language.specs.Machine.{State};
ghost use Rattle.lt_format.specs.declared.header.Header.{Header};
ghost use Rattle.lt_format.specs.declared.node_id.NodeId.{NodeId};
ghost use Rattle.lt_format.specs.Changes.{ChildChange, deal, rewrite};
ghost use Rattle.lt_format.specs.Snapshot.{may_commit, after_commit};
ghost use Rattle.lt_format.specs.Trie.{named, node_at};
ghost use Rattle.lt_image.specs.Versions.{Opened, open_image, pile_items, stored_items};
ghost use Rattle.lt_image.specs.Shares.{deal_shares, rewrite_share};
ghost use Rattle.lt_image.specs.Standing.{Stands};
ghost use Rattle.lt_image.specs.After.{SameExtents, Gets, Deals, Rewrites};

/// A deal and a rewriting leave a sound image with the same map and the same number of writes: an image
/// stands after each for the state that it stood for.
pub fn moves_stand()
    ensures deal { (old new : Image) (o p : Opened) (id : NodeId) (dropped : ℕ) (children : List ChildChange)
        (s : State) → open_image old ≡ Ok o → open_image new ≡ Ok p → Stands old s
        → Deals o p old new id dropped children → Stands new s }
    ensures rewrite { (old new : Image) (o p : Opened) (id : NodeId) (tables groups : List ℕ) (s : State)
        → open_image old ≡ Ok o → open_image new ≡ Ok p → Stands old s → Rewrites o p old new id tables groups
        → Stands new s }
{}

/// A deal and a rewriting store no more items than were stored. A sound image stores at most as many as its
/// manifest counts writes, and so does the image after either.
pub fn moves_store_no_more()
    ensures deal { (old new : Image) (o p : Opened) (id : NodeId) (dropped : ℕ) (children : List ChildChange)
        → open_image old ≡ Ok o → Deals o p old new id dropped children
        → length (stored_items p new) ≤ length (stored_items o old) }
    ensures rewrite { (old new : Image) (o p : Opened) (id : NodeId) (tables groups : List ℕ)
        → open_image old ≡ Ok o → Rewrites o p old new id tables groups
        → length (stored_items p new) ≤ length (stored_items o old) }
{}

/// The commit of a deal or a rewriting whose shares were given: where the extents that were named are as
/// before, and the log too, the new image stands for the state that the old one stood for.
pub fn moves_commit()
    ensures deal { (old new : Image) (o p : Opened) (id : NodeId) (dropped : ℕ) (children : List ChildChange)
        (header : Header) (s : State) → open_image old ≡ Ok o → open_image new ≡ Ok p → Stands old s
        → p.named.geometry ≡ o.named.geometry
        → p.named.manifest ≡ after_commit o.named.manifest (deal id dropped children) header
        → IsTrue (may_commit o.named.geometry.levels o.named.manifest (deal id dropped children) header)
        → p.groups ≡ o.groups
        → SameExtents o.named.geometry old new (named o.named.manifest.trie)
        → AllZip (Gets o.named.geometry new) children
        (deal_shares o.named.manifest.trie id
        (pile_items o.named.geometry old (take dropped (node_at o.named.manifest.trie id).tables)))
        → Stands new s }
    ensures rewrite { (old new : Image) (o p : Opened) (id : NodeId) (tables groups : List ℕ) (header : Header)
        (s : State) → open_image old ≡ Ok o → open_image new ≡ Ok p → Stands old s
        → p.named.geometry ≡ o.named.geometry
        → p.named.manifest ≡ after_commit o.named.manifest (rewrite id tables groups) header
        → IsTrue (may_commit o.named.geometry.levels o.named.manifest (rewrite id tables groups) header)
        → p.groups ≡ o.groups
        → SameExtents o.named.geometry old new (named o.named.manifest.trie)
        → Gets o.named.geometry new (record { node = id; tables = tables; kept_groups = 0; groups = groups })
        (rewrite_share id (pile_items o.named.geometry old (node_at o.named.manifest.trie id).tables))
        → Stands new s }
{}
