//! A bucket as it is read from its page. Nothing is copied.

ghost use Rattle.std.specs.Prelude.{◌≡◌, ◌≤◌, Some, IfSome, IsTrue, is_some, length};
ghost use Rattle.std.specs.List.{find, list_all};
ghost use Rattle.std.specs.Option.{option_map};
ghost use Rattle.lt_terms.specs.Bytes.{same_bytes};
ghost use Rattle.lt_terms.specs.Items.{is_valid};
ghost use Rattle.lt_item.specs.Parts.{parts_of};
ghost use Rattle.lt_item.specs.Views.{item_of};
ghost use Rattle.lt_bucket.specs.Looks.{look_of};
ghost use Rattle.lt_tables.specs.Bucket.{bucket_of, items_on, sends_on, look_on, sent_to};

use crate::reading::{Items, area, items_area, sends_of};
use lt_item::{ItemView, Parts};
use lt_page::Page;
use lt_tables::Sends;
use std::marker::Model;

/// What a look-up of a key in a bucket answers.
#[derive(Clone, Copy, Debug, PartialEq, Eq)]
pub enum Look<'a> {
    /// The first item of the key.
    Here(ItemView<'a>),
    /// The column whose bucket may have the key.
    Moved(u8),
    /// The key is in no bucket of the table.
    Absent,
}

/// A page that spells a bucket. Contracts see the page's bytes.
///
/// The view and each item of it borrow the page: a program that changes the page while one of them
/// is still in use does not compile.
#[derive(Drop)]
pub struct BucketView<'a> {
    page: &'a Page,
    sends: Option<Sends>,
    items: Items<'a>,
}

impl<'a> Model for BucketView<'a> {
    ghost use Rattle.std.specs.Prelude.{List, ℕ};
    ghost use Rattle.lt_bucket.specs.Reading.{SpellsBucket};

    ghost Value = { List ℕ };

    ghost view = { λ view. view.page.now };

    ghost invariant = { λ view. SpellsBucket view.page.now view.sends view.items };
}

impl<'a> BucketView<'a> {
    /// The bucket that a page spells. `None` exactly where it spells none.
    #[tactic(auto, unfolding(lt_tables::specs::Bucket::bucket_of_page_1))]
    pub fn of(page: &'a Page) -> Option<BucketView<'a>>
        ensures spelled { is_some result ≡ is_some (bucket_of page.now) }
        ensures page { IfSome result (λ view. view ≡ page.now) }
    {
        let sends = sends_of(page.byte(4), page.byte(5), page.number_u32(6))?;
        let items = Items::of(page.number_u16(0), items_area(page)?)?;
        Some(BucketView { page, sends, items })
    }

    /// The bucket of a page that is known to spell one. It reads the header alone.
    pub fn known(page: &'a Page) -> BucketView<'a>
        requires { IsTrue (is_some (bucket_of page.now)) }
        ensures { result ≡ page.now }
    {
        let sends = sends_of(page.byte(4), page.byte(5), page.number_u32(6)).unwrap();
        let spelled = area(page, page.number_u16(2));
        let items = Items::known(page.number_u16(0), spelled);
        BucketView { page, sends, items }
    }

    /// How many items there are.
    pub fn count(&self) -> u16
        ensures { result ≡ length (items_on self.now) }
    {
        self.items.len()
    }

    /// Where it sends items, and from which suffix on.
    pub fn sends(&self) -> Option<Sends>
        ensures { result ≡ sends_on self.now }
    {
        self.sends
    }

    /// The items in their order.
    pub fn items(&self) -> Items<'a>
        ensures items { result ≡ items_on self.now }
        ensures valid { IsTrue (list_all is_valid result) }
        // An item costs at least 5 of 4,080 bytes.
        ensures few { length result ≤ 816 }
    {
        self.items.again()
    }

    /// The first item of a key. Where there is none: the column that the key's suffix is sent to,
    /// if it is at or past the mark of a bucket that sends.
    #[tactic(auto, unfolding(lt_item::specs::Parts::parts_of))]
    pub fn find(&self, key: &[u8], parts: &Parts) -> Look<'a>
        requires { parts.now ≡ parts_of key.now }
        ensures { look_on self.now key.now ≡ Some (look_of result) }
    {
        match first_of(key, self.items()) {
            Some(item) => Look::Here(item),
            None => sent_to(self.sends, parts.suffix),
        }
    }
}

fn first_of<'a>(key: &[u8], items: Items<'a>) -> Option<ItemView<'a>>
    ensures { option_map item_of result ≡ find (λ item. same_bytes item.key key.now) items.entry }
{
    for item in items {
        if item.key == key {
            return Some(item);
        }
    }
    None
}

fn sent_to<'a>(sends: Option<Sends>, suffix: u32) -> Look<'a>
    ensures { look_of result ≡ sent_to sends suffix }
{
    match sends {
        Some(sends) if sends.mark <= suffix => Look::Moved(sends.target),
        _ => Look::Absent,
    }
}
