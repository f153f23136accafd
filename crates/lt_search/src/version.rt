//! What a search tells of an item that it found.

ghost use Rattle.std.specs.Prelude.{◌≡◌, ◌≤◌, Some, IsTrue, length};
ghost use Rattle.std.specs.Option.{ForSome};
ghost use Rattle.lt_terms.specs.Items.{is_valid};
ghost use Rattle.lt_item.specs.Views.{item_of};
ghost use Rattle.lt_search.specs.Found.{page_with, value_len, version_of, with_value};

use lt_item::{ItemView, Kind};
use lt_page::Page;

/// What was found of a key: a value of this length, or a delete.
#[derive(Clone, Copy, Debug, PartialEq, Eq)]
pub enum Version {
    Value(u16),
    Deleted,
}

/// Puts the value of an item to the front of a page; of a delete nothing.
pub fn show(item: &ItemView<'_>, out: &mut Page) -> Version
    requires { IsTrue (is_valid (item_of item.now)) }
    ensures version { result ≡ version_of (item_of item.now) }
    ensures page { out.new ≡ page_with (item_of item.now) out.old }
    ensures short { ForSome (value_len (Some result)) (λ n. n ≤ 3000) }
{
    match item.kind {
        Kind::Put => Version::Value(put_front(item.value, out)),
        Kind::Delete => Version::Deleted,
    }
}

/// Puts a value to the front of a page, and answers its length.
fn put_front(value: &[u8], out: &mut Page) -> u16
    requires { length value.now ≤ 3000 }
    ensures len { result ≡ length value.now }
    ensures page { out.new ≡ with_value out.old value.now }
{
    out.fill_from(0, value);
    value.len() as u16
}

/// The length of the value that was found; `None` of a delete, and where nothing was found.
pub fn value_len(version: Option<Version>) -> Option<u16>
    ensures { result ≡ value_len version }
{
    match version {
        Some(Version::Value(len)) => Some(len),
        _ => None,
    }
}
