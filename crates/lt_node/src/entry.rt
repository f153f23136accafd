//! A node with its name.

ghost use Rattle.std.specs.Prelude.{◌≡◌};

use lt_format::NodeId;
use std::marker::Model;

/// A node of the trie under its name.
#[derive(Debug, Drop)]
pub struct NodeEntry {
    node: NodeId,
    base: u32,
    tables: Vec<u32>,
    groups: Vec<u32>,
}

impl Model for NodeEntry {
    ghost use Rattle.lt_format.specs.declared.node_id.NodeId.{NodeId};
    ghost use Rattle.lt_format.specs.Trie.{Node};

    ghost Value = { NodeId × Node };

    ghost view = { λ e. (e.node, record { base = e.base; tables = e.tables.items; groups = e.groups.items }) };
}

impl NodeEntry {
    pub(crate) fn of(node: NodeId, base: u32, tables: Vec<u32>, groups: Vec<u32>) -> NodeEntry
        ensures { result ≡ (node, record { base = base; tables = tables.items; groups = groups.items }) }
    {
        NodeEntry {
            node,
            base,
            tables,
            groups,
        }
    }

    pub fn node(&self) -> NodeId
        ensures { result ≡ self.now.0 }
    {
        self.node
    }

    /// How many tables the last rewriting of the node gave; 0 above the last level.
    pub fn base(&self) -> u32
        ensures { result ≡ self.now.1.base }
    {
        self.base
    }

    /// The pile, the oldest table first.
    pub fn tables(&self) -> &[u32]
        ensures { result.now ≡ self.now.1.tables }
    {
        &self.tables
    }

    pub fn groups(&self) -> &[u32]
        ensures { result.now ≡ self.now.1.groups }
    {
        &self.groups
    }
}
