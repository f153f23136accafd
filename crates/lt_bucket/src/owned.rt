//! Items and keys that own their bytes.

ghost use Rattle.std.specs.Prelude.{◌≡◌, ◌++◌, IfOk, OnOk, IsTrue};
ghost use Rattle.std.specs.List.{list_all};
ghost use Rattle.lt_terms.specs.Items.{is_key, is_valid};
ghost use Rattle.lt_item.specs.Views.{item_of};
ghost use Rattle.lt_item.specs.Parts.{parts_of};

use crate::reading::Items;
use lt_item::{ItemView, Kind, Parts, parts_of};
use lt_page::NoMemory;
use std::alloc::Global;
use std::marker::Model;

/// A valid item that owns its bytes and keeps the parts of its key's hash.
#[derive(Debug, Drop)]
pub struct Item {
    kind: Kind,
    key_len: u8,
    // The key, then the value.
    bytes: Vec<u8>,
    parts: Parts,
}

impl Model for Item {
    ghost use Rattle.lt_terms.specs.Items.{Item};

    ghost Value = { Item };

    ghost use Rattle.lt_bucket.specs.Owned.{item_in_bytes, IsOwned};

    ghost view = { item_in_bytes };

    ghost invariant = { IsOwned };
}

impl Item {
    /// A copy of a valid item.
    pub fn copy(alloc: Global, view: &ItemView<'_>) -> Result<Item, NoMemory>
        requires { IsTrue (is_valid (item_of view.now)) }
        ensures { IfOk result (λ item. item ≡ item_of view.now) }
    {
        Item::with_parts(alloc, view, &parts_of(view.key))
    }

    /// A copy of a valid item, where the parts of its key's hash are at hand.
    pub fn with_parts(alloc: Global, view: &ItemView<'_>, parts: &Parts) -> Result<Item, NoMemory>
        requires valid { IsTrue (is_valid (item_of view.now)) }
        requires parts { parts.now ≡ parts_of view.now.key.now }
        ensures { IfOk result (λ item. item ≡ item_of view.now) }
    {
        let mut bytes = Vec::with_capacity(alloc, view.key.len() + view.value.len())?;
        bytes.extend_from_slice(view.key)?;
        bytes.extend_from_slice(view.value)?;
        Ok(Item {
            kind: view.kind,
            key_len: view.key.len() as u8,
            bytes,
            parts: *parts,
        })
    }

    /// The item, borrowed.
    pub fn view(&self) -> ItemView<'_>
        ensures item { item_of result ≡ self.now }
        ensures valid { IsTrue (is_valid self.now) }
    {
        let (key, value) = self.bytes.split_at(self.key_len as usize);
        ItemView {
            kind: self.kind,
            key,
            value,
        }
    }

    /// The parts of the hash of the item's key.
    pub fn parts(&self) -> &Parts
        ensures { result.now ≡ parts_of self.now.key }
    {
        &self.parts
    }
}

/// A key of 1 to 255 bytes that owns them.
#[derive(Debug, Drop)]
pub struct Key {
    bytes: Vec<u8>,
}

impl Model for Key {
    ghost use Rattle.std.specs.Prelude.{IsTrue, List, ℕ};
    ghost use Rattle.lt_terms.specs.Items.{is_key};

    ghost Value = { List ℕ };

    ghost view = { λ key. key.bytes.items };

    ghost invariant = { λ key. IsTrue (is_key key.bytes.items) };
}

impl Key {
    /// A copy of a key.
    pub fn copy(alloc: Global, bytes: &[u8]) -> Result<Key, NoMemory>
        requires { IsTrue (is_key bytes.now) }
        ensures { IfOk result (λ key. key ≡ bytes.now) }
    {
        Ok(Key {
            bytes: Vec::from_slice(alloc, bytes)?,
        })
    }

    /// The key's bytes.
    pub fn bytes(&self) -> &[u8]
        ensures bytes { result.now ≡ self.now }
        ensures valid { IsTrue (is_key self.now) }
    {
        &self.bytes
    }
}

/// Copies these items behind the others.
pub fn push_all(alloc: Global, all: &mut Vec<Item>, items: Items<'_>) -> Result<(), NoMemory>
    requires { IsTrue (list_all is_valid items) }
    ensures { OnOk result (all.new.items ≡ all.old.items ++ items.entry) }
{
    for item in items {
        all.push(Item::copy(alloc, &item)?)?;
    }
    Ok(())
}
