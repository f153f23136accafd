//! Whether a change fits the trie.

ghost use Rattle.std.specs.Prelude.{◌≡◌, ◌+◌, ◌*◌, ◌<◌, ◌≤◌, [], ◌∷◌, ◌++◌, List, ℕ, IsTrue, length, map};
ghost use Rattle.lt_format.specs.Trie.{all_below, groups_for, is_node, is_last_level, named, node_extents};
ghost use Rattle.lt_format.specs.Changes.{are_new, child_fits, children_fit, fits, given_extents, groups_fit};
ghost use Rattle.lt_format.specs.Changes.{new_extents, shape_fits};
ghost use Rattle.lt_node.specs.Changing.{change_of, child_of};
ghost use Rattle.lt_node.specs.Marks.{AreMarks, MarksNew};

use crate::change::{Change, ChildChange};
use crate::entry::NodeEntry;
use crate::trie::Trie;
use lt_format::NodeId;

const EXTENTS: usize = 65536;

/// Whether the change fits the trie.
#[tactic(auto, unfolding(lt_format::specs::Changes::fits))]
pub fn fits(trie: &Trie, change: &Change) -> bool
    ensures { result ≡ fits trie.now.levels trie.now.nodes (change_of change.now) }
{
    shape_fits(trie, change) && are_new::<EXTENTS>(trie.nodes(), change)
}

fn shape_fits(trie: &Trie, change: &Change) -> bool
    ensures { result ≡ shape_fits trie.now.levels trie.now.nodes (change_of change.now) }
{
    let levels = trie.levels();
    match change {
        Change::Flush { tables } => tables.list().len() >= 1,
        Change::Deal {
            node,
            dropped,
            children,
        } => {
            is_node(levels, *node)
                && !is_last_level(levels, *node)
                && *dropped >= 1
                && *dropped as usize <= trie.pile(*node).len()
                && children_fit(trie, *node, children.list())
        }
        Change::Rewrite {
            node,
            tables,
            groups,
        } => {
            is_last_level(levels, *node)
                && trie.pile(*node).len() >= 1
                && groups.list().len() == groups_for(tables.list().len())
        }
    }
}

/// Whether these are children of the node in rising number, each with a table, and with the groups
/// that its level wants.
fn children_fit(trie: &Trie, node: NodeId, children: &[ChildChange]) -> bool
    ensures { result
        ≡ children_fit trie.now.levels trie.now.nodes node (8 * node.number) (map child_of children.now) }
{
    let mut from = 8 * node.number as u32;
    for child in children {
        if !child_fits(trie, node, from, child) {
            return false;
        }
        from = child.node.number as u32 + 1;
    }
    true
}

fn child_fits(trie: &Trie, node: NodeId, from: u32, child: &ChildChange) -> bool
    ensures { result ≡ child_fits trie.now.levels trie.now.nodes node from (child_of child.now) }
{
    child.node.level as u32 == node.level as u32 + 1
        && from <= child.node.number as u32
        && (child.node.number as u32) < 8 * node.number as u32 + 8
        && child.tables.list().len() >= 1
        && groups_fit(
            is_last_level(trie.levels(), child.node),
            trie.pile(child.node).len(),
            child,
        )
}

/// The groups of a child that has so many tables before a deal.
fn groups_fit(last: bool, tables: usize, child: &ChildChange) -> bool
    ensures { result ≡ groups_fit last tables (child_of child.now) }
{
    let kept = child.kept_groups as usize;
    let new = child.groups.list().len();
    if last {
        kept == tables / 64 && kept + new == groups_for(tables + child.tables.list().len())
    } else {
        kept == 0 && new == 0
    }
}

fn groups_for(tables: usize) -> usize
    ensures { result ≡ groups_for tables }
{
    tables.div_ceil(64)
}

fn is_last_level(levels: u8, node: NodeId) -> bool
    ensures { result ≡ is_last_level levels node }
{
    node.level as u32 + 1 == levels as u32
}

fn is_node(levels: u8, node: NodeId) -> bool
    requires { levels ≤ 5 }
    ensures { result ≡ is_node levels node }
{
    node.level < levels && (node.number as u32) < 8u32.pow(node.level as u32)
}

/// Whether the extents of a change are distinct, below the limit and not named by the trie.
fn are_new<const LIMIT: usize>(nodes: &[NodeEntry], change: &Change) -> bool
    requires limit { LIMIT ≤ 65536 }
    requires below { IsTrue (all_below LIMIT (named nodes.now)) }
    ensures { result ≡ are_new LIMIT nodes.now (new_extents (change_of change.now)) }
{
    let mut marks = [false; LIMIT];
    mark_nodes(&mut marks, nodes);
    mark_change(&mut marks, change)
}

/// Marks what a change newly names, if all of it is new.
fn mark_change(marks: &mut [bool], change: &Change) -> bool
    ensures { MarksNew marks.old (new_extents (change_of change.now)) result marks.new }
{
    match change {
        Change::Flush { tables } => mark_new(marks, tables.list()),
        Change::Deal { children, .. } => mark_children(marks, children.list()),
        Change::Rewrite { tables, groups, .. } => mark_both(marks, tables.list(), groups.list()),
    }
}

/// Marks the extents that nodes name.
fn mark_nodes(marks: &mut [bool], nodes: &[NodeEntry])
    requires { IsTrue (all_below (length marks.old) (named nodes.now)) }
    ensures { (seen : List ℕ) → AreMarks marks.old seen
        → AreMarks marks.new (seen ++ named nodes.now) }
{
    for entry in nodes {
        mark_node(marks, entry);
    }
}

fn mark_node(marks: &mut [bool], entry: &NodeEntry)
    requires { IsTrue (all_below (length marks.old) (node_extents entry.now.1)) }
    ensures { (seen : List ℕ) → AreMarks marks.old seen
        → AreMarks marks.new (seen ++ node_extents entry.now.1) }
{
    mark(marks, entry.tables());
    mark(marks, entry.groups());
}

/// Marks numbers.
fn mark(marks: &mut [bool], numbers: &[u32])
    requires { IsTrue (all_below (length marks.old) numbers.now) }
    ensures { (seen : List ℕ) → AreMarks marks.old seen → AreMarks marks.new (seen ++ numbers.now) }
{
    for number in numbers {
        marks[*number as usize] = true;
    }
}

/// Marks what a deal newly names, if all of it is new.
fn mark_children(marks: &mut [bool], children: &[ChildChange]) -> bool
    ensures { MarksNew marks.old (given_extents (map child_of children.now)) result marks.new }
{
    for child in children {
        if !mark_child(marks, child) {
            return false;
        }
    }
    true
}

fn mark_child(marks: &mut [bool], child: &ChildChange) -> bool
    ensures { MarksNew marks.old (child.now.tables ++ child.now.groups) result marks.new }
{
    mark_both(marks, child.tables.list(), child.groups.list())
}

/// Marks the numbers of two lists, if the one behind the other is new.
fn mark_both(marks: &mut [bool], first: &[u32], second: &[u32]) -> bool
    ensures { MarksNew marks.old (first.now ++ second.now) result marks.new }
{
    if !mark_new(marks, first) {
        return false;
    }
    mark_new(marks, second)
}

/// Marks numbers, if each is below the number of marks, not marked yet and not before itself.
fn mark_new(marks: &mut [bool], numbers: &[u32]) -> bool
    ensures { MarksNew marks.old numbers.now result marks.new }
{
    for number in numbers {
        if !mark_one(marks, *number) {
            return false;
        }
    }
    true
}

fn mark_one(marks: &mut [bool], number: u32) -> bool
    ensures { MarksNew marks.old (number ∷ []) result marks.new }
{
    let index = number as usize;
    if index >= marks.len() || marks[index] {
        return false;
    }
    marks[index] = true;
    true
}
