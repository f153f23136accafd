//! What bytes spell.

ghost use Rattle.std.specs.Prelude.{◌≡◌, ◌+◌, ◌≤◌, IsTrue, is_some, length, drop, slice_range};
ghost use Rattle.std.specs.List.{list_all};
ghost use Rattle.std.specs.Option.{option_copied};
ghost use Rattle.lt_terms.specs.Items.{is_valid, items_of};
ghost use Rattle.lt_tables.specs.Bucket.{sends_of};
ghost use Rattle.lt_bucket.specs.Reading.{items_area, items_in};

use lt_item::{ItemView, read_item};
use lt_page::{Page, all_zero};
use lt_tables::Sends;
use std::marker::Model;

/// What the items of a bucket cost at most.
pub const CAPACITY: usize = 4080;

/// The items that fill some bytes, one after another, borrowed. Contracts see the list of those
/// that are left.
#[derive(Drop)]
pub struct Items<'a> {
    left: u16,
    bytes: &'a [u8],
}

impl<'a> Model for Items<'a> {
    ghost use Rattle.std.specs.Prelude.{List, IsTrue, is_some};
    ghost use Rattle.lt_terms.specs.Items.{Item, items_of};
    ghost use Rattle.lt_bucket.specs.Reading.{items_in};

    ghost Value = { List Item };

    ghost view = { λ items. items_in items.left items.bytes.now };

    ghost invariant = { λ items. IsTrue (is_some (items_of items.left items.bytes.now)) };
}

impl<'a> Items<'a> {
    /// The items that fill these bytes, if they are this many and nothing else.
    pub fn of(count: u16, bytes: &'a [u8]) -> Option<Items<'a>>
        ensures { result ≡ items_of count bytes.now }
    {
        let mut at = 0;
        for _ in 0..count {
            at = read_item(bytes, at)?.1;
        }
        if at == bytes.len() {
            Some(Items { left: count, bytes })
        } else {
            None
        }
    }

    /// The items that are known to fill these bytes, as many as this. None of them is read.
    pub fn known(count: u16, bytes: &'a [u8]) -> Items<'a>
        requires { IsTrue (is_some (items_of count bytes.now)) }
        ensures { result ≡ items_in count bytes.now }
    {
        Items { left: count, bytes }
    }

    /// How many items are left.
    pub fn len(&self) -> u16
        ensures { result ≡ length self.now }
    {
        self.left
    }

    /// The same items once more.
    pub fn again(&self) -> Items<'a>
        ensures same { result ≡ self.now }
        ensures valid { IsTrue (list_all is_valid result) }
    {
        Items {
            left: self.left,
            bytes: self.bytes,
        }
    }
}

impl<'a> Iterator for Items<'a> {
    ghost use Rattle.std.specs.Iterator.{YieldsFirstBy, item_count};
    ghost use Rattle.lt_item.specs.Views.{item_of};

    type Item = ItemView<'a>;

    ghost next_gives = { YieldsFirstBy item_of (λ items. items) };

    ghost remaining = { item_count (λ items. items) };

    fn next(&mut self) -> Option<ItemView<'a>> {
        if self.left == 0 {
            return None;
        }
        let (item, behind) = read_item(self.bytes, 0)?;
        self.left -= 1;
        self.bytes = self.bytes.split_at(behind).1;
        Some(item)
    }
}

/// Where a bucket with these bytes 4 to 9 sends; `None` where they are spelled in no such way.
pub fn sends_of(flag: u8, target: u8, mark: u32) -> Option<Option<Sends>>
    ensures { result ≡ sends_of flag target mark }
{
    match flag {
        0 if target == 0 && mark == 0 => Some(None),
        1 if target < 64 => Some(Some(Sends { target, mark })),
        _ => None,
    }
}

/// The bytes of a page where its items stand, if the bytes about them are as they must be.
pub fn items_area(page: &Page) -> Option<&[u8]>
    ensures { option_copied result ≡ items_area page.now }
{
    // The format comes before any rule on items.
    if page.byte(10) != 1 {
        return None;
    }
    let used = page.number_u16(2) as usize;
    if used > CAPACITY {
        return None;
    }
    let bytes = page.bytes();
    let end = 16 + used;
    if all_zero(&bytes[11..16]) && all_zero(bytes.split_at(end).1) {
        Some(&bytes[16..end])
    } else {
        None
    }
}

/// So many bytes of a page from where its items begin.
pub fn area(page: &Page, used: u16) -> &[u8]
    requires { used ≤ 4080 }
    ensures { result.now ≡ slice_range page.now 16 (16 + used) }
{
    &page.bytes()[16..16 + used as usize]
}
