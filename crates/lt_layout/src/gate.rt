//! The gates of slots, and the selector of the current manifest area.

ghost use Rattle.std.specs.Prelude.{◌≡◌};
ghost use Rattle.lt_format.specs.Layout.{is_open, gate_page, selected};

use lt_page::Page;

/// Whether this page is an open gate: its first byte is 1.
pub fn gate_open(page: &Page) -> bool
    ensures { result ≡ is_open page.now }
{
    page.byte(0) == 1
}

/// Makes the page a gate: 1 or 0, and zeros.
pub fn write_gate(page: &mut Page, is_open: bool)
    ensures { page.new ≡ gate_page is_open }
{
    page.clear();
    page.fill_from(0, &[u8::from(is_open)]);
}

/// The manifest area that this page selects, 0 or 1: the lowest bit of its first byte.
pub fn selected(page: &Page) -> u8
    ensures { result ≡ selected page.now }
{
    page.byte(0) % 2
}
