//! The node that is to be dealt or rewritten next.

ghost use Rattle.std.specs.Prelude.{◌≡◌, ◌+◌, ◌*◌, ◌==◌, ◌&&◌, ◌||◌, None, if◌then◌else◌, not};
ghost use Rattle.std.specs.List.{find, list_any};
ghost use Rattle.std.specs.Option.{option_map};
ghost use Rattle.lt_format.specs.Trie.{node_at};
ghost use Rattle.lt_image.specs.Needs.{is_full, is_twice_full};
ghost use Rattle.lt_pace.specs.Candidates.{full_nodes, name_of, next_full, next_slack};
ghost use Rattle.lt_pace.specs.Marks.{is_marked};

use crate::marks::Marks;
use lt_format::NodeId;
use lt_node::{NodeEntry, Trie};

/// The first full pile that is not passed over: a due last-level pile by number, then a full inner pile,
/// the deepest level first.
pub fn first_full(trie: &Trie, passed_over: &Marks) -> Option<NodeId>
    ensures { result ≡ name_of (next_full trie.now.levels trie.now.nodes passed_over.now) }
{
    let levels = trie.levels();
    for level in (0..levels).rev() {
        let node = full_on(trie, level, passed_over);
        if node.is_some() {
            return node;
        }
    }
    None
}

/// The first full pile of a level that is not passed over.
fn full_on(trie: &Trie, level: u8, passed_over: &Marks) -> Option<NodeId>
    ensures { result ≡ name_of (find (λ e. (e.0.level == level) && (is_full trie.now.levels e
        && not (is_marked passed_over.now e.0))) trie.now.nodes) }
{
    let levels = trie.levels();
    let entry = trie.nodes().iter().find(|entry| entry.node().level == level
        && is_full(levels, entry)
        && !passed_over.is_marked(entry.node()))?;
    Some(entry.node())
}

/// The first last-level pile by number that is neither passed over nor known to have no slack.
pub fn first_slack(trie: &Trie, passed_over: &Marks, without_slack: &Marks) -> Option<NodeId>
    ensures { result ≡ name_of (next_slack trie.now.levels trie.now.nodes passed_over.now
        without_slack.now) }
{
    unmarked_on(trie, trie.levels() - 1, passed_over, without_slack)
}

/// The first pile of a level by number that has neither mark.
fn unmarked_on(trie: &Trie, level: u8, passed_over: &Marks, without_slack: &Marks) -> Option<NodeId>
    ensures { result ≡ name_of (find (λ e. (e.0.level == level) && not (is_marked passed_over.now e.0
        || is_marked without_slack.now e.0)) trie.now.nodes) }
{
    let entry = trie.nodes().iter().find(|entry| entry.node().level == level
        && !(passed_over.is_marked(entry.node()) || without_slack.is_marked(entry.node())))?;
    Some(entry.node())
}

/// Whether a node's pile is a full inner one, or a due one of the last level.
pub fn is_full_at(trie: &Trie, node: NodeId) -> bool
    ensures { result ≡ is_full trie.now.levels (node, node_at trie.now.nodes node) }
{
    full_at(trie.levels(), node.level, trie.base(node)) <= trie.pile(node).len() as u64
}

/// Whether some pile has twice as many tables as make it full.
pub fn any_twice_full(trie: &Trie) -> bool
    ensures { result ≡ list_any (is_twice_full trie.now.levels) trie.now.nodes }
{
    let levels = trie.levels();
    trie.nodes()
        .iter()
        .any(|entry| is_twice_full(levels, entry))
}

/// Whether a pile is a full inner one, or a due one of the last level.
fn is_full(levels: u8, entry: &NodeEntry) -> bool
    ensures { result ≡ is_full levels entry.now }
{
    full_at(levels, entry.node().level, entry.base()) <= entry.tables().len() as u64
}

/// Whether a pile has twice as many tables as make it full.
fn is_twice_full(levels: u8, entry: &NodeEntry) -> bool
    ensures { result ≡ is_twice_full levels entry.now }
{
    2 * full_at(levels, entry.node().level, entry.base()) <= entry.tables().len() as u64
}

/// How many tables make a pile of a level full, whose last rewriting gave so many.
fn full_at(levels: u8, level: u8, base: u32) -> u64
    ensures { result ≡ (if level + 1 == levels then 2 * base + 8 else 8) }
{
    if u16::from(level) + 1 == u16::from(levels) {
        2 * u64::from(base) + 8
    } else {
        8
    }
}
