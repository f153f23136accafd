//! What a manifest that was read is.

ghost use Rattle.std.specs.Prelude.{◌≡◌, ◌<◌, Ok, IsTrue, length};
ghost use Rattle.lt_terms.specs.Bytes.{Image};
ghost use Rattle.lt_format.specs.Layout.{is_geometry};
ghost use Rattle.lt_format.specs.Snapshot.{Named, manifest_of, extents_stand};
ghost use Rattle.lt_format.specs.Trie.{IsTrie};

/// The geometry that an image names is one, and its manifest has a log area, as many extents as the
/// device has room for, and a trie of these extents.
pub fn read_manifests_stand()
    ensures geometry { (image : Image) (n : Named) → manifest_of image ≡ Ok n → IsTrue (is_geometry n.geometry) }
    ensures area { (image : Image) (n : Named) → manifest_of image ≡ Ok n → n.manifest.header.log_area < 2 }
    ensures extents { (image : Image) (n : Named) → manifest_of image ≡ Ok n
        → IsTrue (extents_stand n.geometry (length image) n.manifest.header.extents) }
    ensures trie { (image : Image) (n : Named) → manifest_of image ≡ Ok n
        → IsTrie n.geometry.levels n.manifest.header.extents n.manifest.trie }
{}
