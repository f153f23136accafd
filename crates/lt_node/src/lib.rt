//! The trie of piles in memory, and what a commit changes of it.
#![tactic(auto)]

mod change;
mod entry;
mod fault;
mod fitting;
mod key_path;
mod laws;
mod numbers;
mod place;
mod trie;

pub use change::{Change, ChildChange, Children};
pub use entry::NodeEntry;
pub use fault::CommitFault;
pub use key_path::path;
pub use laws::{
    deals_grow_children, deals_take_the_oldest, flushes_grow_the_root, other_nodes_stay,
    rewritings_replace_the_node,
};
pub use lt_format::{Header, NodeId};
pub use numbers::Numbers;
pub use trie::Trie;
