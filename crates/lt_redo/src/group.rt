//! A group of items on the page that is its content.

ghost use Rattle.std.specs.Prelude.{◌≡◌, ◌+◌, ◌<◌, ◌≤◌, IfSome, IsTrue, length};
ghost use Rattle.std.specs.List.{list_all};
ghost use Rattle.std.specs.Option.{option_map};
ghost use Rattle.lt_terms.specs.Items.{is_valid, item_cost, total_cost};
ghost use Rattle.lt_item.specs.Views.{item_of};
ghost use Rattle.lt_format.specs.Log.{group_room, group_on};
ghost use Rattle.lt_redo.specs.Group.{Finishes, Gathers};

use lt_bucket::{Items, put_item};
use lt_item::ItemView;
use lt_page::{Page, all_zero};

/// What the items of a group cost at most.
pub const GROUP_ROOM: u16 = 4092;

/// Puts an item behind those that stand on the page, and answers how many bytes they take now.
pub fn gather(page: &mut Page, used: u16, item: &ItemView<'_>) -> u16
    requires valid { IsTrue (is_valid (item_of item.now)) }
    requires room { used + item_cost (item_of item.now) ≤ group_room }
    ensures used { result ≡ used + item_cost (item_of item.now) }
    ensures gathered { Gathers (item_of item.now) page.old used page.new result }
{
    (put_item(page, 4 + used as usize, item) - 4) as u16
}

/// Writes the header, so that the page is the content of the group on it.
pub fn finish(page: &mut Page, count: u16, used: u16)
    ensures { Finishes count used page.old page.new }
{
    page.fill_from(0, &count.to_be_bytes());
    page.fill_from(2, &used.to_be_bytes());
}

/// The items of the group that the page spells, and what they cost. `None` exactly where it spells none.
#[tactic(auto, unfolding(lt_format::specs::Log::group_on))]
pub fn group_on(page: &Page) -> Option<(Items<'_>, u16)>
    ensures spelled { option_map (λ group. group.0) result ≡ group_on page.now }
    ensures valid { IfSome result (λ group. IsTrue (list_all is_valid group.0)) }
    ensures some { IfSome result (λ group. 0 < length group.0) }
    ensures cost { IfSome result (λ group. group.1 ≡ total_cost group.0) }
{
    let count = page.number_u16(0);
    let used = page.number_u16(2);
    if count == 0 || used > GROUP_ROOM {
        return None;
    }
    let (spelled, behind) = page.bytes().split_at(4 + used as usize);
    if !all_zero(behind) {
        return None;
    }
    Some((Items::of(count, &spelled[4..])?, used))
}
