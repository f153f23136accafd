//! The words that the contracts of all layers cite: bytes, blocks and images, items and their one
//! spelling, the parts of a key's hash, the map that items make, and the causes of failures.
#![tactic(auto)]

mod laws;

pub use laws::{read_again, spelled_so};

/// What an item does to its key.
#[derive(Clone, Copy, Debug, PartialEq, Eq)]
pub enum Kind {
    Put,
    Delete,
}
