//! The superblock: `LSMTRIE1`, the levels in one byte, the slots in two, and zeros.

ghost use Rattle.std.specs.Prelude.{◌≡◌};
ghost use Rattle.lt_format.specs.Layout.{is_geometry, superblock, geometry_of};

use lt_format::Geometry;
use lt_page::{Page, all_zero};

const MAGIC: [u8; 8] = *b"LSMTRIE1";

/// The geometry whose superblock the page is. `None` exactly where it is none.
#[tactic(auto, unfolding(lt_format::specs::Layout::geometry_of))]
pub fn read_super(page: &Page) -> Option<Geometry>
    ensures { result ≡ geometry_of page.now }
{
    let geometry = Geometry {
        levels: page.byte(8),
        slots: page.number_u16(9),
    };
    let bytes = page.bytes();
    if &bytes[..8] == MAGIC.as_slice() && is_valid(&geometry) && all_zero(&bytes[11..]) {
        Some(geometry)
    } else {
        None
    }
}

/// Makes the page the superblock of this geometry.
pub fn write_super(page: &mut Page, geometry: &Geometry)
    ensures { page.new ≡ superblock geometry.now }
{
    page.clear();
    page.fill_from(0, &MAGIC);
    page.fill_from(8, &[geometry.levels]);
    page.fill_from(9, &geometry.slots.to_be_bytes());
}

fn is_valid(geometry: &Geometry) -> bool
    ensures { result ≡ is_geometry geometry.now }
{
    2 <= geometry.levels && geometry.levels <= 5 && 1 <= geometry.slots && geometry.slots <= 512
}
