//! The manifest of a store on its device.
#![tactic(auto)]

mod area;
mod fault;
mod manifest;
mod snapshot;
mod superblock;

pub use lt_layout::OpenFault;
pub use lt_node::{Change, CommitFault, Trie};
pub use manifest::Manifest;
pub use superblock::read_geometry;
