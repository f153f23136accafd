//! Marks of nodes.

ghost use Rattle.std.specs.Prelude.{◌≡◌, ◌<◌, ◌≤◌, IfOk, slice_set};
ghost use Rattle.lt_pace.specs.Marks.{is_marked, marked, most_nodes, no_marks, place_of, unmarked};

use lt_format::NodeId;
use lt_page::NoMemory;
use std::alloc::Global;
use std::marker::Model;

/// How many nodes five levels have.
const NODES: usize = 4681;

/// Marks of the nodes of a trie of at most five levels. Contracts see a flag for each node, level after
/// level. All memory is taken when it is made.
#[derive(Debug, Drop)]
pub struct Marks {
    flags: Vec<bool>,
}

impl Model for Marks {
    ghost use Rattle.std.specs.Prelude.{◌≡◌, List, Bool, length};
    ghost use Rattle.lt_pace.specs.Marks.{most_nodes};

    ghost Value = { List Bool };

    ghost view = { λ marks. marks.flags.items };

    ghost invariant = { λ marks. length marks.flags.items ≡ most_nodes };
}

impl Marks {
    /// No node is marked.
    pub fn new(alloc: Global) -> Result<Marks, NoMemory>
        ensures { IfOk result (λ marks. marks ≡ no_marks) }
    {
        Ok(Marks {
            flags: vec![in alloc; false; NODES]?,
        })
    }

    /// Marks a node, if a trie of five levels has it.
    pub fn mark(&mut self, node: NodeId)
        ensures { self.new ≡ marked self.old node }
    {
        self.set(node, true);
    }

    /// Takes the mark off a node.
    pub fn clear(&mut self, node: NodeId)
        ensures { self.new ≡ unmarked self.old node }
    {
        self.set(node, false);
    }

    fn set(&mut self, node: NodeId, value: bool)
        ensures { self.new ≡ slice_set self.old (place_of node) value }
    {
        let place = place_of(node);
        if place < NODES {
            self.flags[place] = value;
        }
    }

    /// Takes the marks off all nodes.
    pub fn clear_all(&mut self)
        ensures { self.new ≡ no_marks }
    {
        self.flags.fill(false);
    }

    /// Whether a node is marked.
    pub fn is_marked(&self, node: NodeId) -> bool
        ensures { result ≡ is_marked self.now node }
    {
        match self.flags.get(place_of(node)) {
            Some(flag) => *flag,
            None => false,
        }
    }
}

/// The place of a node's flag, which lies behind all flags where no trie of five levels has the node.
fn place_of(node: NodeId) -> usize
    ensures near { result < most_nodes → result ≡ place_of node }
    ensures far { most_nodes ≤ result → most_nodes ≤ place_of node }
{
    let mut first = 0;
    // Level 5 would begin behind all flags.
    for _ in 0..node.level.min(5) {
        first = 8 * first + 1;
    }
    first + usize::from(node.number)
}
