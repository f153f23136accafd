//! The bits of a page. Bit 0 is the highest of byte 0.

ghost use Rattle.std.specs.Prelude.{◌≡◌, ◌==◌, ◌<◌, ℕ, true, length, if◌then◌else◌};
ghost use Rattle.lt_tables.specs.Filter.{is_set};

use lt_page::Page;

/// How many bits a page has.
pub(crate) const BITS: usize = 8 * Page::LEN;

/// Whether a bit is set.
pub(crate) fn is_set(page: &Page, bit: usize) -> bool
    requires { bit < BITS }
    ensures { result ≡ is_set page.now bit }
{
    page.byte(bit / 8) >> (7 - bit % 8) & 1 == 1
}

/// Sets a bit, and no other.
pub(crate) fn set(page: &mut Page, bit: usize)
    requires { bit < BITS }
    ensures len { length page.new ≡ length page.old }
    ensures set { (n : ℕ) → is_set page.new n ≡ (if n == bit then true else is_set page.old n) }
{
    let byte = page.byte(bit / 8);
    page.set(bit / 8, byte | 1 << (7 - bit % 8));
}
