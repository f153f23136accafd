//! Items by a digit of their keys.

ghost use Rattle.std.specs.Prelude.{◌≡◌, ◌==◌, ◌<◌, ◌≤◌, [], IfOk, OnOk, OnErr, length, map, vec_capacity};
ghost use Rattle.std.specs.List.{range_with_len};
ghost use Rattle.lt_terms.specs.Hashes.{key_digit};
ghost use Rattle.lt_tables.specs.Table.{with_digit};
ghost use Rattle.lt_merge.specs.Dealing.{AreDealt};

use lt_bucket::Item;
use lt_page::NoMemory;
use std::alloc::Global;
use std::mem;

/// The items by their digit at a level, in eight lists, each in the order of the items. All memory is
/// taken before an item is moved.
pub fn deal_by(alloc: Global, items: &mut Vec<Item>, level: u8) -> Result<Vec<Vec<Item>>, NoMemory>
    requires { level ≤ 3 }
    ensures dealt { IfOk result (λ lists. map (λ list. list.items) lists.items
        ≡ map (λ d. with_digit level d items.old.items) (range_with_len 0 8)) }
    ensures emptied { OnOk result (items.new.items ≡ []) }
    ensures kept { OnErr result (items.new.items ≡ items.old.items) }
{
    let mut lists = rooms(alloc, items, level)?;
    for item in mem::replace(items, Vec::new(alloc)) {
        let digit = digit_of(&item, level);
        lists[digit as usize].push_reserved(item);
    }
    Ok(lists)
}

/// For each digit an empty list, with room for the items of that digit.
fn rooms(alloc: Global, items: &[Item], level: u8) -> Result<Vec<Vec<Item>>, NoMemory>
    requires { level ≤ 3 }
    ensures { IfOk result (λ lists. AreDealt level [] items.now
        (map (λ list. list.items) lists.items) (map (λ list. vec_capacity list) lists.items)) }
{
    let mut lists = Vec::with_capacity(alloc, 8)?;
    for digit in 0..8u8 {
        let room = count(items, level, digit);
        lists.push(Vec::with_capacity(alloc, room)?)?;
    }
    Ok(lists)
}

/// How many of the items have this digit.
fn count(items: &[Item], level: u8, digit: u8) -> usize
    requires { level ≤ 3 }
    ensures { result ≡ length (with_digit level digit items.now) }
{
    let mut count = 0;
    for item in items {
        if digit_of(item, level) == digit {
            count += 1;
        }
    }
    count
}

/// The digit of an item's key at a level.
#[tactic(auto, unfolding(lt_item::specs::Parts::parts_of))]
pub fn digit_of(item: &Item, level: u8) -> u8
    requires { level ≤ 3 }
    ensures digit { result ≡ key_digit item.now.key level }
    ensures small { result < 8 }
{
    item.parts().digits[level as usize]
}
