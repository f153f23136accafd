//! What a search along a key's path finds.

ghost use Rattle.std.specs.Prelude.{◌≡◌, ℕ, ◌/◌, ◌%◌, ◌<◌, List, [], ◌++◌, Ok, None, Some, IsFalse, IsTrue, All};
ghost use Rattle.std.specs.Prelude.{false, length, nat_le, slice_index};
ghost use Rattle.std.specs.Option.{option_map_or, option_or};
ghost use Rattle.lt_terms.specs.Bytes.{Image};
ghost use Rattle.lt_terms.specs.Hashes.{home_column, key_suffix};
ghost use Rattle.lt_terms.specs.Items.{Item, value_at, after_items};
ghost use Rattle.lt_tables.specs.declared.Sends.{Sends};
ghost use Rattle.lt_tables.specs.Bucket.{look_on, moved, sends_on};
ghost use Rattle.lt_tables.specs.Filter.{covers};
ghost use Rattle.lt_tables.specs.Table.{newest, newest_of, value_of, IsPlaced};
ghost use Rattle.lt_format.specs.declared.node_id.NodeId.{NodeId};
ghost use Rattle.lt_format.specs.Trie.{is_last_level, node_at};
ghost use Rattle.lt_image.specs.Versions.{Opened, open_image, log_items, extent_in, items_at, versions, map_of};
ghost use Rattle.lt_image.specs.Versions.{at_stops, found};
ghost use Rattle.lt_image.specs.Standing.{bad_blocks};

/// On a sound image the newest version of a key is what a search along its path finds: the log's
/// newest, and else that of the first table that holds the key, from the root down and the newest
/// first in each pile. Its value is the key's value in the image's map. With further items behind the
/// log's it is the value in the map that these leave.
pub fn paths_tell()
    ensures newest { (image : Image) (o : Opened) (key : List ℕ) → open_image image ≡ Ok o
        → bad_blocks o image ≡ [] → newest_of key (versions o image) ≡ found o image key }
    ensures value { (image : Image) (o : Opened) (key : List ℕ) → open_image image ≡ Ok o → bad_blocks o image ≡ []
        → value_at (map_of o image) key ≡ value_of (found o image key) }
    ensures pending { (image : Image) (o : Opened) (items : List Item) (key : List ℕ) → open_image image ≡ Ok o
        → bad_blocks o image ≡ []
        → value_at (after_items (map_of o image) items) key
        ≡ value_of (option_or (newest_of key (log_items o ++ items))
        (at_stops (items_at o.named.geometry image) o.named.geometry.levels o.named.manifest.trie key)) }
{}

/// Each table of a node of a sound image is that of its own newest items, and holds no version of a
/// key that its home filter does not cover.
pub fn tables_answer()
    ensures placed { (image : Image) (o : Opened) (id : NodeId) → bad_blocks o image ≡ []
        → All (λ x. IsPlaced (newest (items_at o.named.geometry image x)) (extent_in o.named.geometry image x))
        (node_at o.named.manifest.trie id).tables }
    ensures skipped { (image : Image) (o : Opened) (id : NodeId) (key : List ℕ) → bad_blocks o image ≡ []
        → All (λ x. IsFalse (covers (extent_in o.named.geometry image x 64) (home_column key) key)
        → newest_of key (items_at o.named.geometry image x) ≡ None)
        (node_at o.named.manifest.trie id).tables }
{}

/// Of a table of a last-level node of a sound image the filter in its group's block of a column answers for
/// each key as its own filter of that column.
pub fn groups_answer()
    ensures { (image : Image) (o : Opened) (id : NodeId) (i c : ℕ) (key : List ℕ) → open_image image ≡ Ok o
        → bad_blocks o image ≡ [] → IsTrue (is_last_level o.named.geometry.levels id)
        → i < length (node_at o.named.manifest.trie id).tables → c < 64
        → let pile = node_at o.named.manifest.trie id in
        covers (extent_in o.named.geometry image (slice_index pile.groups (i / 64)) c) (i % 64) key
        ≡ covers (extent_in o.named.geometry image (slice_index pile.tables i) 64) c key }
{}

/// A page answers that a key is in another bucket only where it sends the key's suffix.
pub fn moved_keys_are_sent()
    ensures { (page key : List ℕ) (column : ℕ) → look_on page key ≡ Some (moved column)
        → IsTrue (option_map_or (λ (t : Sends). nat_le t.mark (key_suffix key)) (sends_on page) false) }
{}
