//! Where a node stands among nodes in order.

ghost use Rattle.std.specs.Prelude.{◌≡◌, ◌+◌, ◌<◌, ◌≤◌, IsTrue, vec_len, vec_capacity};
ghost use Rattle.std.specs.FinMap.{is_sorted};
ghost use Rattle.std.specs.List.{fold};
ghost use Rattle.lt_format.specs.Trie.{node_cmp, with_node};
ghost use Rattle.lt_node.specs.Changing.{with_entry};
ghost use Rattle.lt_node.specs.Places.{IsPlace};

use crate::entry::NodeEntry;
use lt_format::NodeId;
use std::cmp::Ordering;

/// Where the node stands, or where it would stand.
pub fn place(nodes: &[NodeEntry], node: NodeId) -> Result<usize, usize>
    requires { IsTrue (is_sorted node_cmp nodes.now) }
    ensures { IsPlace nodes.now node result }
{
    nodes.binary_search_by(|entry| by_name(entry.node(), node))
}

/// The order of nodes: by level, then by number.
fn by_name(a: NodeId, b: NodeId) -> Ordering
    ensures { result ≡ node_cmp a b }
{
    a.level.cmp(&b.level).then_with(|| a.number.cmp(&b.number))
}

/// Sets a node. There is room for one more. A node without tables leaves the trie.
pub fn set(nodes: &mut Vec<NodeEntry>, entry: NodeEntry)
    requires sorted { IsTrue (is_sorted node_cmp nodes.old.items) }
    requires room { vec_len nodes.old < vec_capacity nodes.old }
    ensures nodes { nodes.new.items ≡ with_entry nodes.old.items entry }
    ensures len { vec_len nodes.new ≤ vec_len nodes.old + 1 }
    ensures capacity { vec_capacity nodes.old ≤ vec_capacity nodes.new }
{
    match (place(nodes, entry.node()), entry.tables().is_empty()) {
        (Ok(index), true) => {
            nodes.remove(index);
        }
        (Ok(index), false) => nodes[index] = entry,
        (Err(_), true) => {}
        (Err(index), false) => nodes.insert(index, entry).unwrap(),
    }
}

/// Sets nodes, one after another. There is room for as many more.
pub fn set_all(nodes: &mut Vec<NodeEntry>, entries: Vec<NodeEntry>)
    requires sorted { IsTrue (is_sorted node_cmp nodes.old.items) }
    requires room { vec_len nodes.old + vec_len entries ≤ vec_capacity nodes.old }
    ensures { nodes.new.items ≡ fold with_entry nodes.old.items entries.items }
{
    for entry in entries {
        set(nodes, entry);
    }
}
