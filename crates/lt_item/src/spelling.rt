//! Items as bytes.

ghost use Rattle.std.specs.Prelude.{◌≡◌, ◌+◌, ◌≤◌, length, drop, Some, IsTrue, IfSome};
ghost use Rattle.std.specs.Option.{option_map};
ghost use Rattle.lt_terms.specs.Items.{is_valid, item_cost, front_item, cut_item, kind_byte, kind_of_byte};
ghost use Rattle.lt_terms.specs.Bytes.{filled};
ghost use Rattle.lt_item.specs.Views.{item_of, found_in, header_of, item_written};

use crate::view::{ItemView, cost};
use lt_terms::Kind;

/// Writes the spelling of an item from `at` on, leaves all else, and answers the place after it.
pub fn write_item(into: &mut [u8], at: usize, item: &ItemView<'_>) -> usize
    requires valid { IsTrue (is_valid (item_of item.now)) }
    requires room { at + item_cost (item_of item.now) ≤ length into.old }
    ensures written { into.new ≡ item_written into.old at (item_of item.now) }
    ensures after { result ≡ at + item_cost (item_of item.now) }

    // It is read again, whatever follows it.
    ensures read_again { front_item (drop at into.new)
        ≡ Some (item_of item.now, drop (at + item_cost (item_of item.now)) into.old) }
{
    let key_at = put_bytes(into, at, &item_header(item));
    let value_at = put_bytes(into, key_at, item.key);
    put_bytes(into, value_at, item.value)
}

/// The four bytes in front of an item's key: the kind and the lengths of key and value.
pub fn item_header(item: &ItemView<'_>) -> [u8; 4]
    requires { IsTrue (is_valid (item_of item.now)) }
    ensures { result ≡ header_of (item_of item.now) }
{
    let [high, low] = (item.value.len() as u16).to_be_bytes();
    [kind_byte(item.kind), item.key.len() as u8, high, low]
}

/// The item spelled at `at`, and the place after it. `None` exactly where no item is spelled there.
pub fn read_item(bytes: &[u8], at: usize) -> Option<(ItemView<'_>, usize)>
    ensures item { option_map (found_in bytes.now) result ≡ front_item (drop at bytes.now) }
    ensures after { IfSome result (λ found. found.1 ≡ at + item_cost (item_of found.0)) }
    ensures within { IfSome result (λ found. found.1 ≤ length bytes.now) }
    ensures valid { IfSome result (λ found. IsTrue (is_valid (item_of found.0))) }
{
    let (_, bytes) = bytes.split_at_checked(at)?;
    let item = front(bytes)?;
    Some((item, at + cost(&item) as usize))
}

#[tactic(auto, unfolding(lt_terms::specs::Items::front_item))]
fn front(bytes: &[u8]) -> Option<ItemView<'_>>
    ensures item { option_map (λ item. (item_of item, drop (item_cost (item_of item)) bytes.now)) result
        ≡ front_item bytes.now }
    ensures within { IfSome result (λ item. item_cost (item_of item) ≤ length bytes.now) }
    ensures valid { IfSome result (λ item. IsTrue (is_valid (item_of item))) }
{
    let (header, rest) = bytes.split_first_chunk::<4>()?;
    let value_len = u16::from_be_bytes([header[2], header[3]]);
    cut(
        kind_of(header[0]),
        header[1] as usize,
        value_len as usize,
        rest,
    )
}

#[tactic(auto, unfolding(lt_terms::specs::Items::cut_item))]
fn cut(kind: Option<Kind>, key_len: usize, value_len: usize, bytes: &[u8]) -> Option<ItemView<'_>>
    ensures item { option_map (λ item. (item_of item, drop (key_len + value_len) bytes.now)) result
        ≡ cut_item kind key_len value_len bytes.now }
    ensures key_len { IfSome result (λ item. length item.key.now ≡ key_len) }
    ensures value_len { IfSome result (λ item. length item.value.now ≡ value_len) }
    ensures within { IfSome result (λ item. key_len + value_len ≤ length bytes.now) }
    ensures valid { IfSome result (λ item. IsTrue (is_valid (item_of item))) }
{
    let kind = kind?;
    let (key, rest) = bytes.split_at_checked(key_len)?;
    let (value, _) = rest.split_at_checked(value_len)?;
    let item = ItemView { kind, key, value };
    if item.is_valid() { Some(item) } else { None }
}

fn kind_byte(kind: Kind) -> u8
    ensures { result ≡ kind_byte kind }
{
    match kind {
        Kind::Put => 1,
        Kind::Delete => 2,
    }
}

fn kind_of(byte: u8) -> Option<Kind>
    ensures { result ≡ kind_of_byte byte }
{
    match byte {
        1 => Some(Kind::Put),
        2 => Some(Kind::Delete),
        _ => None,
    }
}

fn put_bytes(into: &mut [u8], at: usize, bytes: &[u8]) -> usize
    requires { at + length bytes.now ≤ length into.old }
    ensures written { into.new ≡ filled into.old at bytes.now }
    ensures after { result ≡ at + length bytes.now }
{
    let end = at + bytes.len();
    into[at..end].copy_from_slice(bytes);
    end
}
