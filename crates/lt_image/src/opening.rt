//! What opening tells of an image.

ghost use Rattle.std.specs.Prelude.{◌≡◌, ◌≤◌, Ok, All, IsTrue};
ghost use Rattle.lt_terms.specs.Bytes.{Image};
ghost use Rattle.lt_terms.specs.Items.{is_valid, total_cost};
ghost use Rattle.lt_tables.specs.Table.{newest};
ghost use Rattle.lt_format.specs.Log.{log_groups, log_room};
ghost use Rattle.lt_format.specs.Snapshot.{manifest_of};
ghost use Rattle.lt_image.specs.Versions.{Opened, open_image, log_items};

/// An image opens exactly as its manifest and the log that this names. The log's items are valid, and
/// so are the newest of them, and the log has room for them.
pub fn images_open()
    ensures opens { (image : Image) (o : Opened) → manifest_of image ≡ Ok o.named
        → log_groups o.named.geometry image o.named.manifest.header.log_area o.named.manifest.header.writes
        ≡ Ok o.groups
        → open_image image ≡ Ok o }
    ensures named { (image : Image) (o : Opened) → open_image image ≡ Ok o → manifest_of image ≡ Ok o.named }
    ensures log { (image : Image) (o : Opened) → open_image image ≡ Ok o
        → log_groups o.named.geometry image o.named.manifest.header.log_area o.named.manifest.header.writes
        ≡ Ok o.groups }
    ensures valid { (image : Image) (o : Opened) → open_image image ≡ Ok o
        → All (λ item. IsTrue (is_valid item)) (log_items o) }
    ensures newest { (image : Image) (o : Opened) → open_image image ≡ Ok o
        → All (λ item. IsTrue (is_valid item)) (newest (log_items o)) }
    ensures room { (image : Image) (o : Opened) → open_image image ≡ Ok o → total_cost (log_items o) ≤ log_room }
{}
