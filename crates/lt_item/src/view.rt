//! A borrowed item.

ghost use Rattle.std.specs.Prelude.{◌≡◌, IsTrue};
ghost use Rattle.lt_terms.specs.Items.{is_valid, item_cost};
ghost use Rattle.lt_item.specs.Views.{item_of};

use lt_terms::Kind;

/// How many bytes a key has at most; it has at least one.
pub const KEY_LIMIT: usize = 255;

/// How many bytes the value of a put has at most. A delete has none.
pub const VALUE_LIMIT: usize = 3000;

/// An item whose key and value are borrowed.
#[derive(Clone, Copy, Debug, PartialEq, Eq)]
pub struct ItemView<'a> {
    pub kind: Kind,
    pub key: &'a [u8],
    pub value: &'a [u8],
}

impl ItemView<'_> {
    /// Whether the lengths are within the limits, and a delete has an empty value.
    pub fn is_valid(&self) -> bool
        ensures { result ≡ is_valid (item_of self.now) }
    {
        let value_limit = match self.kind {
            Kind::Put => VALUE_LIMIT,
            Kind::Delete => 0,
        };
        !self.key.is_empty() && self.key.len() <= KEY_LIMIT && self.value.len() <= value_limit
    }
}

/// What an item takes of a log block, of a bucket and of the memory table, in bytes.
pub fn cost(item: &ItemView<'_>) -> u16
    requires { IsTrue (is_valid (item_of item.now)) }
    ensures { result ≡ item_cost (item_of item.now) }
{
    (4 + item.key.len() + item.value.len()) as u16
}
