//! Items in one buffer, found by a hash of their keys.

ghost use Rattle.std.specs.Prelude.{◌≡◌, ℕ, ◌+◌, ◌<◌, ◌≤◌, ◌∷◌, [], ◌++◌, List, IfOk, IfSome, IsTrue};
ghost use Rattle.std.specs.Prelude.{vec_len, vec_capacity};
ghost use Rattle.std.specs.List.{list_all};
ghost use Rattle.std.specs.Option.{option_map};
ghost use Rattle.lt_terms.specs.Items.{is_key, is_valid, item_cost, spelling, total_cost, put_of, delete_of};
ghost use Rattle.lt_item.specs.Parts.{parts_of};
ghost use Rattle.lt_item.specs.Views.{item_of};
ghost use Rattle.lt_tables.specs.Table.{newest, newest_of};
ghost use Rattle.lt_mem.specs.Index.{bucket_of, table_room};

use crate::ranking::newest_items;
use lt_bucket::{Item, Items};
use lt_item::{ItemView, Kind, Parts, item_header, parts_of, read_item};
use lt_page::NoMemory;
use std::alloc::Global;
use std::marker::Model;

// Room for this many bytes of items.
const BYTES: usize = 204092;

// No more items of least cost fit in that room.
const ITEMS: usize = 40818;

const BUCKETS: usize = 65536;

/// Items in the order in which they were put in. All memory is taken by `new`.
///
/// A look-up costs the SHA-1 of its key, where that is not at hand, and a step for each linked item.
/// `lt_bench memory` times puts and gets of 34,000 keys beside std's hash map: they took about three times as long.
///
/// An item is found by 16 bits of its key's hash. Items with the same 16 bits are linked, the
/// newest first, and a look-up follows the links. The hash is no secret: keys can be chosen so
/// that all of them are linked, and a look-up then reads all items, 40,818 at most. Putting an
/// item in follows no link.
#[derive(Drop)]
pub struct MemTable {
    // The spellings of the items, one behind the other.
    bytes: Vec<u8>,
    places: Vec<Place>,
    // For each value of the 16 bits the number of its newest item, from 1 on; 0 where there is none.
    heads: Vec<u32>,
}

/// Where an item begins, and the number of the item that is linked before it.
#[derive(Clone, Copy)]
struct Place {
    at: u32,
    before: u32,
}

impl Model for MemTable {
    ghost use Rattle.std.specs.Prelude.{List};
    ghost use Rattle.lt_terms.specs.Items.{Item};

    ghost Value = { List Item };

    ghost use Rattle.lt_mem.specs.Inside.{items_inside, IsIndexed};

    ghost view = { items_inside };

    ghost invariant = { IsIndexed };
}

impl MemTable {
    /// A table with no items, and with all the room that it will use.
    pub fn new(alloc: Global) -> Result<MemTable, NoMemory>
        ensures { IfOk result (λ table. table ≡ []) }
    {
        Ok(MemTable {
            bytes: Vec::with_capacity(alloc, BYTES)?,
            places: Vec::with_capacity(alloc, ITEMS)?,
            heads: vec![in alloc; 0; BUCKETS]?,
        })
    }

    /// Puts a value in under a key.
    pub fn put(&mut self, key: &[u8], value: &[u8])
        requires valid { IsTrue (is_valid (put_of key.now value.now)) }
        requires room { total_cost self.old + item_cost (put_of key.now value.now) ≤ table_room }
        ensures { self.new ≡ self.old ++ put_of key.now value.now ∷ [] }
    {
        self.add(
            &ItemView {
                kind: Kind::Put,
                key,
                value,
            },
            &parts_of(key),
        );
    }

    /// Puts the delete of a key in.
    pub fn delete(&mut self, key: &[u8])
        requires valid { IsTrue (is_key key.now) }
        requires room { total_cost self.old + item_cost (delete_of key.now) ≤ table_room }
        ensures { self.new ≡ self.old ++ delete_of key.now ∷ [] }
    {
        self.add(
            &ItemView {
                kind: Kind::Delete,
                key,
                value: &[],
            },
            &parts_of(key),
        );
    }

    /// Puts an item in, where the parts of its key's hash are at hand.
    pub fn add(&mut self, item: &ItemView<'_>, parts: &Parts)
        requires parts { parts.now ≡ parts_of item.now.key.now }
        requires valid { IsTrue (is_valid (item_of item.now)) }
        requires room { total_cost self.old + item_cost (item_of item.now) ≤ table_room }
        ensures { self.new ≡ self.old ++ item_of item.now ∷ [] }
    {
        let bucket = bucket_of(parts);
        let place = Place {
            at: self.bytes.len() as u32,
            before: self.heads[bucket],
        };
        append_item(&mut self.bytes, item);
        self.places.push_reserved(place);
        self.heads[bucket] = self.places.len() as u32;
    }

    /// The newest item of a key, which may be a delete. `None` exactly where no item has that key.
    pub fn get(&self, key: &[u8]) -> Option<ItemView<'_>>
        ensures item { option_map item_of result ≡ newest_of key.now self.now }
        ensures valid { IfSome result (λ item. IsTrue (is_valid (item_of item))) }
    {
        self.find(key, &parts_of(key))
    }

    /// The newest item of a key, as `get` answers it, where the parts of the key's hash are at hand.
    pub fn find(&self, key: &[u8], parts: &Parts) -> Option<ItemView<'_>>
        requires { parts.now ≡ parts_of key.now }
        ensures item { option_map item_of result ≡ newest_of key.now self.now }
        ensures valid { IfSome result (λ item. IsTrue (is_valid (item_of item))) }
    {
        let mut number = self.heads[bucket_of(parts)];
        while number > 0 {
            let place = self.places[number as usize - 1];
            let (item, _) = read_item(&self.bytes, place.at as usize)?;
            if item.key == key {
                return Some(item);
            }
            number = place.before;
        }
        None
    }

    /// What all items cost that were put in since the start or the last clear.
    pub fn bytes(&self) -> u32
        ensures { result ≡ total_cost self.now }
    {
        self.bytes.len() as u32
    }

    /// The newest item of each key, in rank order, a delete included.
    pub fn batch(&self, alloc: Global) -> Result<Vec<Item>, NoMemory>
        ensures { IfOk result (λ batch. batch.items ≡ newest self.now) }
    {
        newest_items(alloc, self.items())
    }

    fn items(&self) -> Items<'_>
        ensures items { result ≡ self.now }
        ensures valid { IsTrue (list_all is_valid self.now) }
    {
        Items::of(self.places.len() as u16, &self.bytes).unwrap()
    }

    /// Takes all items out.
    pub fn clear(&mut self)
        ensures { self.new ≡ [] }
    {
        self.bytes.clear();
        self.places.clear();
        self.heads.fill(0);
    }
}

fn bucket_of(parts: &Parts) -> usize
    ensures bucket { (key : List ℕ) → parts.now ≡ parts_of key → result ≡ bucket_of key }
    ensures below { result < 65536 }
{
    (parts.suffix % 65536) as usize
}

fn append_item(bytes: &mut Vec<u8>, item: &ItemView<'_>)
    requires valid { IsTrue (is_valid (item_of item.now)) }
    requires room { vec_len bytes.old + item_cost (item_of item.now) ≤ vec_capacity bytes.old }
    ensures items { bytes.new.items ≡ bytes.old.items ++ spelling (item_of item.now) }
    ensures len { vec_len bytes.new ≡ vec_len bytes.old + item_cost (item_of item.now) }
    ensures capacity { vec_capacity bytes.old ≤ vec_capacity bytes.new }
{
    // There is room, so none of these takes memory.
    bytes.extend_from_slice(&item_header(item)).unwrap();
    bytes.extend_from_slice(item.key).unwrap();
    bytes.extend_from_slice(item.value).unwrap();
}
