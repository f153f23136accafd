//! Laws of snapshots.

ghost use Rattle.std.specs.Prelude.{◌≡◌, ℕ, ◌+◌, ◌<◌, ◌≤◌, Ok, IsTrue, length, slice_index};
ghost use Rattle.lt_terms.specs.Bytes.{Image, block_at};
ghost use Rattle.lt_format.specs.declared.geometry.Geometry.{Geometry};
ghost use Rattle.lt_format.specs.Layout.{is_geometry, area_block, snapshot_blocks};
ghost use Rattle.lt_format.specs.Snapshot.{manifest_of, Manifest, IsManifest, snapshot_bytes, snapshot_page};
ghost use Rattle.lt_format.specs.Snapshot.{pages_of, snapshot_read, snapshot_in};

/// A manifest is read again from the bytes of its snapshot, whatever follows them, and from their
/// pages in an area. The pages fit in the area.
pub fn snapshots_are_read_again()
    ensures bytes { (g : Geometry) (blocks : ℕ) (m : Manifest) (bytes : ℕ → ℕ) → IsTrue (is_geometry g)
        → IsManifest g blocks m
        → ((i : ℕ) → i < length (snapshot_bytes m) → bytes i ≡ slice_index (snapshot_bytes m) i)
        → snapshot_read g blocks bytes ≡ Ok m }
    ensures pages { (g : Geometry) (image : Image) (a : ℕ) (m : Manifest) → IsTrue (is_geometry g)
        → IsManifest g (length image) m
        → ((k : ℕ) → k < pages_of m → block_at image (area_block a + k) ≡ snapshot_page m k)
        → snapshot_in g image a ≡ Ok m }
    ensures room { (g : Geometry) (blocks : ℕ) (m : Manifest) → IsManifest g blocks m → pages_of m ≤ snapshot_blocks }
{}

/// A snapshot is told by the blocks of its area, and a manifest by these, the superblock and the
/// selector.
pub fn manifests_are_local()
    ensures snapshot { (g : Geometry) (image left : Image) (a : ℕ) → length left ≡ length image
        → ((n : ℕ) → n < snapshot_blocks → block_at left (area_block a + n) ≡ block_at image (area_block a + n))
        → snapshot_in g left a ≡ snapshot_in g image a }
    ensures manifest { (image left : Image) → length left ≡ length image
        → ((n : ℕ) → n < 868 → block_at left n ≡ block_at image n) → manifest_of left ≡ manifest_of image }
{}
