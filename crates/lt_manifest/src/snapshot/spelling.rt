//! Spelling a snapshot.

ghost use Rattle.std.specs.Prelude.{◌≡◌, ◌+◌, ◌*◌, ◌≤◌, ◌++◌, [], length, IfOk, vec_capacity};
ghost use Rattle.lt_format.specs.Snapshot.{node_bytes, nodes_bytes, numbers, snapshot_bytes};
ghost use Rattle.lt_manifest.specs.Spelling.{Adds, HasRoomFor};

use lt_format::{Header, NodeId};
use lt_node::NodeEntry;
use lt_page::NoMemory;
use std::alloc::Global;

/// An empty vector that has room for the snapshot of a trie with so many extents.
pub fn snapshot_room(alloc: Global, extents: u32) -> Result<Vec<u8>, NoMemory>
    ensures empty { IfOk result (λ bytes. bytes.items ≡ []) }
    ensures room { IfOk result (λ bytes. 40 + 19 * extents ≤ vec_capacity bytes) }
{
    Ok(Vec::with_capacity(alloc, 40 + 19 * extents as usize)?)
}

/// Puts the snapshot of a manifest into an empty vector that has room for it.
pub fn spell(bytes: &mut Vec<u8>, header: &Header, nodes: &[NodeEntry])
    requires empty { bytes.old.items ≡ [] }
    requires few { length (snapshot_bytes (record { header = header.now; trie = nodes.now }))
        ≤ 305 * 4096 }
    requires room { 40 + length (nodes_bytes nodes.now) ≤ vec_capacity bytes.old }
    ensures { bytes.new.items ≡ snapshot_bytes (record { header = header.now; trie = nodes.now }) }
{
    let total = 40 + nodes_len(nodes);
    add(bytes, &[1, header.log_area, 0, 0]);
    add(bytes, &header.extents.to_be_bytes());
    add(bytes, &header.writes.to_be_bytes());
    add(bytes, &(nodes.len() as u32).to_be_bytes());
    add(bytes, &total.to_be_bytes());
    add(bytes, &[0; 16]);
    spell_nodes(bytes, nodes);
}

/// How many bytes the nodes take.
fn nodes_len(nodes: &[NodeEntry]) -> u32
    requires { length (nodes_bytes nodes.now) ≤ 305 * 4096 }
    ensures { result ≡ length (nodes_bytes nodes.now) }
{
    let mut total = 0;
    for entry in nodes {
        total += node_len(entry);
    }
    total
}

fn node_len(entry: &NodeEntry) -> u32
    requires { length (node_bytes entry.now) ≤ 305 * 4096 }
    ensures { result ≡ length (node_bytes entry.now) }
{
    let extents = entry.tables().len() + entry.groups().len();
    15 + 4 * extents as u32
}

fn spell_nodes(bytes: &mut Vec<u8>, nodes: &[NodeEntry])
    requires few { length (nodes_bytes nodes.now) ≤ 305 * 4096 }
    requires room { HasRoomFor bytes.old (nodes_bytes nodes.now) }
    ensures { bytes.new.items ≡ bytes.old.items ++ nodes_bytes nodes.now }
{
    for entry in nodes {
        spell_node(bytes, entry);
    }
}

fn spell_node(bytes: &mut Vec<u8>, entry: &NodeEntry)
    requires few { length (node_bytes entry.now) ≤ 305 * 4096 }
    requires room { HasRoomFor bytes.old (node_bytes entry.now) }
    ensures { Adds bytes.old (node_bytes entry.now) bytes.new }
{
    let NodeId { level, number } = entry.node();
    add(bytes, &[level]);
    add(bytes, &number.to_be_bytes());
    add(bytes, &entry.base().to_be_bytes());
    add(bytes, &(entry.tables().len() as u32).to_be_bytes());
    add(bytes, &(entry.groups().len() as u32).to_be_bytes());
    spell_numbers(bytes, entry.tables());
    spell_numbers(bytes, entry.groups());
}

fn spell_numbers(bytes: &mut Vec<u8>, list: &[u32])
    requires { HasRoomFor bytes.old (numbers list.now) }
    ensures { Adds bytes.old (numbers list.now) bytes.new }
{
    for number in list {
        add(bytes, &number.to_be_bytes());
    }
}

/// Puts bytes behind the others, where there is room.
fn add(bytes: &mut Vec<u8>, more: &[u8])
    requires { HasRoomFor bytes.old more.now }
    ensures { Adds bytes.old more.now bytes.new }
{
    match bytes.extend_from_slice(more) {
        Ok(()) => {}
        Err(_) => unreachable!(),
    }
}
