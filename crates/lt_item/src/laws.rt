//! A law of the spelling of items, for those who write one part by part.

ghost use Rattle.std.specs.Prelude.{List, ℕ};
ghost use Rattle.lt_terms.specs.Items.{Item};
ghost use Rattle.lt_item.specs.Views.{WritesInParts};

/// The header, the key and the value, put one behind the other, are the item written.
pub fn writes_in_parts()
    ensures { (item : Item) (old : List ℕ) (at : ℕ) → WritesInParts item old at }
{}
