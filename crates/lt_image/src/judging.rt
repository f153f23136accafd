//! What the judgment of a table's buckets says.

ghost use Rattle.std.specs.Prelude.{◌≡◌, ℕ, List, Some, IsTrue, ◌↔◌};
ghost use Rattle.lt_tables.specs.Bucket.{Bucket, bucket_of};
ghost use Rattle.lt_image.specs.Standing.{spells};

/// The test whether a page spells a bucket passes exactly where reading the page gives the bucket.
pub fn pages_spell_what_is_read()
    ensures { (page : List ℕ) (bucket : Bucket) → IsTrue (spells page bucket) ↔ (bucket_of page ≡ Some bucket) }
{}
