//! What a commit changes of the trie.

ghost use Rattle.std.specs.Prelude.{◌≡◌};

use crate::numbers::Numbers;
use lt_format::NodeId;
use std::marker::Model;

/// What a deal gives a child: new tables behind its pile, and at the last level how many groups stay
/// and which follow them.
#[derive(Debug, Drop)]
pub struct ChildChange {
    pub node: NodeId,
    pub tables: Numbers,
    pub kept_groups: u32,
    pub groups: Numbers,
}

/// What a deal gives the children of a node, in rising number.
#[derive(Debug, Drop)]
pub struct Children {
    list: Vec<ChildChange>,
}

impl Model for Children {
    ghost use Rattle.std.specs.Prelude.{List};
    ghost use Rattle.lt_node.specs.declared.change.ChildChange.{ChildChange};

    ghost Value = { List ChildChange };

    ghost view = { λ children. children.list.items };
}

impl Children {
    /// Takes no memory.
    pub fn of(list: Vec<ChildChange>) -> Children
        ensures { result ≡ list.items }
    {
        Children { list }
    }

    pub fn list(&self) -> &[ChildChange]
        ensures { result.now ≡ self.now }
    {
        &self.list
    }
}

/// A change of the trie.
#[derive(Debug, Drop)]
pub enum Change {
    /// Puts tables behind the root's pile.
    Flush {
        tables: Numbers,
    },
    /// Takes the oldest tables, as many as `dropped`, off a node's pile, and gives tables to its
    /// children.
    Deal {
        node: NodeId,
        dropped: u32,
        children: Children,
    },
    /// Replaces the pile and the groups of a last-level node.
    Rewrite {
        node: NodeId,
        tables: Numbers,
        groups: Numbers,
    },
}
