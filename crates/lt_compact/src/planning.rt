//! What a job makes of the tables that it scanned.

ghost use Rattle.std.specs.Prelude.{◌≡◌, ◌+◌, ◌<◌, ◌≤◌, ◌^◌, ◌||◌, ◌&&◌, [], not, nat_lt, IfOk, OnOk, OnErr, IsTrue};
ghost use Rattle.std.specs.Prelude.{length};
ghost use Rattle.std.specs.List.{list_any};
ghost use Rattle.lt_tables.specs.Table.{is_put, newest};
ghost use Rattle.lt_format.specs.Trie.{is_last_level, is_node, node_at};
ghost use Rattle.lt_image.specs.Shares.{needed, shares_of};
ghost use Rattle.lt_compact.specs.Jobs.{all_items, is_loose, is_told_slack};
ghost use Rattle.lt_compact.specs.Plans.{extents_for};

use crate::share::{Share, is_last_level};
use crate::sharing::shares_of;
use lt_bucket::Item;
use lt_format::NodeId;
use lt_merge::{is_put, newest};
use lt_node::Trie;
use lt_page::NoMemory;
use std::alloc::Global;

/// What a job's tables become, how many extents that needs, and whether a last-level node has slack.
#[derive(Drop)]
pub(super) struct Plan {
    pub shares: Vec<Share>,
    pub needed: u32,
    pub slack: bool,
}

/// Plans what becomes of the items of a node's tables, of which `loose` tells whether there were some that a
/// rewriting drops. Where memory is refused, the lists and `loose` stand for the same.
pub(super) fn plan_lists(
    alloc: Global,
    trie: &Trie,
    node: NodeId,
    lists: &mut Vec<Vec<Item>>,
    loose: &mut bool,
) -> Result<Plan, NoMemory>
    requires node { IsTrue (is_node trie.now.levels node) }
    // As many items as 65,536 tables hold at most.
    requires few { length (all_items lists.old.items) ≤ 3422552064 }
    ensures shares { IfOk result (λ plan. plan.shares.items ≡ shares_of trie.now.levels
        trie.now.nodes node (newest (all_items lists.old.items))) }
    ensures needed { IfOk result (λ plan. plan.needed ≡ needed trie.now.levels
        trie.now.nodes node (newest (all_items lists.old.items))) }
    ensures extents { IfOk result (λ plan.
        plan.needed ≡ extents_for trie.now.levels plan.shares.items) }
    ensures slack { IfOk result (λ plan.
        let items = all_items lists.old.items in
        plan.slack ≡ is_told_slack trie.now.levels trie.now.nodes node (newest items)
        (loose.old || is_loose items)) }
    ensures kept { OnErr result (newest (all_items lists.new.items)
        ≡ newest (all_items lists.old.items)) }
    ensures loose { OnErr result ((loose.new || is_loose (all_items lists.new.items))
        ≡ (loose.old || is_loose (all_items lists.old.items))) }
    ensures fewer { length (all_items lists.new.items)
        ≤ length (all_items lists.old.items) }
{
    let mut room = Vec::with_capacity(alloc, 1)?;
    let mut kept = merged(alloc, lists, loose)?;
    match shares_of(alloc, trie, node, &mut kept) {
        Ok(shares) => Ok(planned(trie, node, shares, *loose)),
        Err(fault) => {
            room.push_reserved(kept);
            *lists = room;
            Err(fault)
        }
    }
}

/// The newest of each key, and in `loose` whether there were items that a rewriting drops. Where memory is
/// refused nothing changes.
fn merged(
    alloc: Global,
    lists: &mut Vec<Vec<Item>>,
    loose: &mut bool,
) -> Result<Vec<Item>, NoMemory>
    requires few { length (all_items lists.old.items) ≤ 3422552064 }
    ensures newest { IfOk result (λ kept.
        kept.items ≡ newest (all_items lists.old.items)) }
    ensures loose { OnOk result (loose.new
        ≡ (loose.old || is_loose (all_items lists.old.items))) }
    ensures emptied { OnOk result (lists.new.items ≡ []) }
    ensures kept { OnErr result ((lists.new.items ≡ lists.old.items) × (loose.new ≡ loose.old)) }
{
    let count = count(lists);
    let deletes = have_deletes(lists);
    let kept = newest(alloc, lists)?;
    *loose = told(*loose, deletes, kept.len(), count);
    Ok(kept)
}

/// Whether items are loose: it was told already, there is a delete, or they have fewer keys than there are
/// items.
fn told(loose: bool, deletes: bool, keys: usize, items: usize) -> bool
    ensures { result ≡ ((loose || deletes) || nat_lt keys items) }
{
    loose || deletes || keys < items
}

/// How many items lists have.
fn count(lists: &[Vec<Item>]) -> usize
    requires { length (all_items lists.now) ≤ 3422552064 }
    ensures { result ≡ length (all_items lists.now) }
{
    let mut count = 0;
    for list in lists {
        count += list.len();
    }
    count
}

/// Whether some item of the lists is a delete.
fn have_deletes(lists: &[Vec<Item>]) -> bool
    ensures { result ≡ list_any (λ v. not (is_put v)) (all_items lists.now) }
{
    for list in lists {
        if has_delete(list) {
            return true;
        }
    }
    false
}

fn has_delete(items: &[Item]) -> bool
    ensures { result ≡ list_any (λ v. not (is_put v)) items.now }
{
    items.iter().any(is_delete)
}

fn is_delete(item: &Item) -> bool
    ensures { result ≡ not (is_put item.now) }
{
    !is_put(item)
}

/// The plan of these shares.
fn planned(trie: &Trie, node: NodeId, shares: Vec<Share>, loose: bool) -> Plan
    requires few { extents_for trie.now.levels shares.items < 2 ^ 32 }
    ensures shares { result.shares.items ≡ shares.items }
    ensures needed { result.needed ≡ extents_for trie.now.levels shares.items }
    ensures slack { result.slack ≡ (is_last_level trie.now.levels node && (loose
        || nat_lt result.needed (length (node_at trie.now.nodes node).tables
        + length (node_at trie.now.nodes node).groups))) }
{
    let needed = needed(trie.levels(), &shares);
    let slack = is_last_level(trie.levels(), node) && (loose || needed < extents_of(trie, node));
    Plan {
        shares,
        needed,
        slack,
    }
}

/// How many extents shares take together.
fn needed(levels: u8, shares: &[Share]) -> u32
    requires { extents_for levels shares.now < 2 ^ 32 }
    ensures { result ≡ extents_for levels shares.now }
{
    let mut needed = 0;
    for share in shares {
        needed += share.extents(levels) as u32;
    }
    needed
}

/// How many extents a node has.
fn extents_of(trie: &Trie, node: NodeId) -> u32
    ensures { result ≡ length (node_at trie.now.nodes node).tables
        + length (node_at trie.now.nodes node).groups }
{
    // A trie has at most five levels, and its extents have numbers below 65,536.
    prove!(trie.levels() <= 5);
    (trie.pile(node).len() + trie.groups(node).len()) as u32
}
