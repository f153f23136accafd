//! A law of the layout.

ghost use Rattle.std.specs.Prelude.{◌≡◌, ℕ, ◌<◌};
ghost use Rattle.lt_format.specs.declared.geometry.Geometry.{Geometry};
ghost use Rattle.lt_format.specs.Layout.{blocks_needed};
ghost use Rattle.lt_format.specs.Regions.{Region, IsRegion, IsIn};

/// No block lies in two regions, and each region lies within the blocks that a store needs.
pub fn regions_are_apart()
    ensures apart { (g : Geometry) (extents n : ℕ) (r s : Region) → IsRegion g extents r → IsRegion g extents s
        → IsIn g n r → IsIn g n s → r ≡ s }
    ensures within { (g : Geometry) (extents n : ℕ) (r : Region) → IsRegion g extents r → IsIn g n r
        → n < blocks_needed g extents }
{}
