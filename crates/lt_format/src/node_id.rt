//! The names of nodes.

/// A node of the trie: its level, 0 to 4, and its number among the nodes of that level, below 8 to
/// the power of the level.
#[derive(Clone, Copy, Debug, PartialEq, Eq)]
pub struct NodeId {
    pub level: u8,
    pub number: u16,
}

impl NodeId {
    /// The only node of level 0.
    pub const ROOT: NodeId = NodeId {
        level: 0,
        number: 0,
    };
}
