//! A law of the superblock.

ghost use Rattle.std.specs.Prelude.{◌≡◌, List, ℕ, Some, IsTrue};
ghost use Rattle.lt_terms.specs.Bytes.{IsBlock};
ghost use Rattle.lt_format.specs.declared.geometry.Geometry.{Geometry};
ghost use Rattle.lt_format.specs.Layout.{is_geometry, superblock, geometry_of};

/// The superblock of a valid geometry is read as this geometry, and no other block is.
pub fn one_superblock()
    ensures read { (g : Geometry) → IsTrue (is_geometry g) → geometry_of (superblock g) ≡ Some g }
    ensures only { (block : List ℕ) (g : Geometry) → IsBlock block → geometry_of block ≡ Some g
        → IsTrue (is_geometry g) × (block ≡ superblock g) }
{}
