//! What a flush leaves.

ghost use Rattle.std.specs.Prelude.{◌≡◌, ℕ, ◌≤◌, List, [], Ok, length};
ghost use Rattle.lt_terms.specs.Bytes.{Image};
ghost use Rattle.lt_language.specs.Machine.{State};
ghost use Rattle.lt_tables.specs.Table.{newest};
ghost use Rattle.lt_tables.specs.Cut.{cut};
ghost use Rattle.lt_format.specs.declared.header.Header.{Header};
ghost use Rattle.lt_format.specs.Changes.{flush};
ghost use Rattle.lt_format.specs.Snapshot.{after_commit};
ghost use Rattle.lt_format.specs.Trie.{named};
ghost use Rattle.lt_image.specs.Versions.{Opened, open_image, log_items, number_of, stored_items, map_of};
ghost use Rattle.lt_image.specs.Standing.{bad_blocks, Stands};
ghost use Rattle.lt_image.specs.After.{SameExtents, Follows, PlacedIn, Flushes};

/// A flush of a sound image leaves a sound image with the same map. So, where the number of writes
/// is as before, an image stands after a flush for the state that it stood for.
pub fn flushes_stand()
    ensures sound { (old new : Image) (o p : Opened) (tables : List ℕ) → open_image old ≡ Ok o
        → bad_blocks o old ≡ [] → Flushes o p old new tables → bad_blocks p new ≡ [] }
    ensures map { (old new : Image) (o p : Opened) (tables : List ℕ) → open_image old ≡ Ok o
        → bad_blocks o old ≡ [] → Flushes o p old new tables → map_of p new ≡ map_of o old }
    ensures stands { (old new : Image) (o p : Opened) (tables : List ℕ) (s : State) → open_image old ≡ Ok o
        → open_image new ≡ Ok p → Stands old s → Flushes o p old new tables → number_of p ≡ number_of o
        → Stands new s }
{}

/// The tables of a sound image hold no more items than its manifest's writes. After a flush they
/// hold no more than the image before had writes, so that a flush which keeps that number and
/// leaves the log empty is one.
pub fn few_items_are_stored()
    ensures before { (image : Image) (o : Opened) → bad_blocks o image ≡ []
        → length (stored_items o image) ≤ o.named.manifest.header.writes }
    ensures after { (old new : Image) (o p : Opened) (tables : List ℕ) → open_image old ≡ Ok o
        → bad_blocks o old ≡ [] → Follows o p old new (flush tables)
        → PlacedIn o.named.geometry new tables (cut (newest (log_items o)))
        → length (stored_items p new) ≤ number_of o }
    ensures flushes { (old new : Image) (o p : Opened) (tables : List ℕ) → open_image old ≡ Ok o
        → bad_blocks o old ≡ [] → Follows o p old new (flush tables)
        → PlacedIn o.named.geometry new tables (cut (newest (log_items o))) → log_items p ≡ []
        → number_of p ≡ number_of o → Flushes o p old new tables }
{}

/// The commit of a flush: where the new manifest counts all writes of the image before, its log is
/// empty, and the tables are placed for the newest of the old log's items, the new image stands for
/// the state that the old one stood for.
pub fn flushes_commit()
    ensures { (old new : Image) (o p : Opened) (tables : List ℕ) (header : Header) (s : State)
        → open_image old ≡ Ok o → open_image new ≡ Ok p → Stands old s
        → p.named.geometry ≡ o.named.geometry
        → p.named.manifest ≡ after_commit o.named.manifest (flush tables) header → header.writes ≡ number_of o
        → p.groups ≡ []
        → SameExtents o.named.geometry old new (named o.named.manifest.trie)
        → PlacedIn o.named.geometry new tables (cut (newest (log_items o))) → Stands new s }
{}
