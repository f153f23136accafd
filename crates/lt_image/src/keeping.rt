//! What an image stands for while its manifest and the extents that this names stay as they are.

ghost use Rattle.std.specs.Prelude.{◌≡◌, ℕ, ◌+◌, ◌<◌, ◌≤◌, List, [], ◌∷◌, ◌++◌, Ok, IsTrue, IsFalse, length};
ghost use Rattle.lt_terms.specs.Bytes.{Image, block_at, is_in};
ghost use Rattle.lt_terms.specs.Items.{Item};
ghost use Rattle.lt_language.specs.Machine.{State, nothing_yet, after_write};
ghost use Rattle.lt_format.specs.Layout.{extent_block, extent_blocks};
ghost use Rattle.lt_format.specs.Snapshot.{Named, manifest_of};
ghost use Rattle.lt_format.specs.Trie.{named};
ghost use Rattle.lt_image.specs.Versions.{Opened, open_image, log_items};
ghost use Rattle.lt_image.specs.Standing.{Stands, after_writes, is_free_block};
ghost use Rattle.lt_image.specs.After.{Keeps, SameNamed};

/// An image with an empty manifest and an empty log stands for the empty map and no writes.
pub fn fresh_images_stand()
    ensures { (image : Image) (o : Opened) → open_image image ≡ Ok o → o.named.manifest.trie ≡ []
        → o.named.manifest.header.writes ≡ 0 → o.groups ≡ [] → Stands image nothing_yet }
{}

/// Where the log grew and nothing else that the manifest names has changed, an image stands for the
/// state after the writes that the log has more.
pub fn logs_grow()
    ensures items { (old new : Image) (o p : Opened) (items : List Item) (s : State) → open_image old ≡ Ok o
        → open_image new ≡ Ok p → Keeps o p old new → log_items p ≡ log_items o ++ items → Stands old s
        → Stands new (after_writes s items) }
    ensures group { (old new : Image) (o p : Opened) (group : List Item) (s : State) → open_image old ≡ Ok o
        → open_image new ≡ Ok p → Keeps o p old new → p.groups ≡ o.groups ++ group ∷ [] → Stands old s
        → Stands new (after_writes s group) }
{}

/// The state after writes is that after the first of them, and then the rest; it is that of the
/// machine after one.
pub fn writes_add_up()
    ensures none { (s : State) → after_writes s [] ≡ s }
    ensures one { (s : State) (item : Item) → after_writes s (item ∷ []) ≡ after_write s item }
    ensures joined { (s : State) (first rest : List Item)
        → after_writes (after_writes s first) rest ≡ after_writes s (first ++ rest) }
{}

/// What an image stands for rests on its manifest, and on the blocks of the log area and of the
/// extents that this names. The blocks that are not free have all of these.
pub fn named_blocks_tell()
    ensures opens { (old new : Image) (m : Named) → manifest_of old ≡ Ok m → manifest_of new ≡ Ok m
        → SameNamed m old new → open_image new ≡ open_image old }
    ensures stands { (old new : Image) (m : Named) (s : State) → manifest_of old ≡ Ok m → manifest_of new ≡ Ok m
        → SameNamed m old new → Stands old s → Stands new s }
    ensures manifest { (old new : Image) (m : Named) → length new ≡ length old → manifest_of old ≡ Ok m
        → ((n : ℕ) → IsFalse (is_free_block m n) → block_at old n ≡ block_at new n) → manifest_of new ≡ Ok m }
    ensures not_free { (old new : Image) (m : Named) → manifest_of old ≡ Ok m
        → ((n : ℕ) → IsFalse (is_free_block m n) → block_at old n ≡ block_at new n) → SameNamed m old new }
{}

/// The blocks of an extent of the store that the manifest does not name are free, and no others are.
pub fn free_blocks_are_unnamed()
    ensures free { (m : Named) (x n : ℕ) → x < m.manifest.header.extents
        → IsFalse (is_in x (named m.manifest.trie)) → extent_block m.geometry x ≤ n
        → n < extent_block m.geometry x + extent_blocks → IsTrue (is_free_block m n) }
    ensures unnamed { (m : Named) (n : ℕ) → IsTrue (is_free_block m n)
        → (x : ℕ) × (x < m.manifest.header.extents) × IsFalse (is_in x (named m.manifest.trie))
        × (extent_block m.geometry x ≤ n) × (n < extent_block m.geometry x + extent_blocks) }
{}
