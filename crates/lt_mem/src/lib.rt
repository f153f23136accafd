//! The memory table: the items since the last flush, with the newest of each key at hand.
#![tactic(auto)]

mod ranking;
mod table;

pub use table::MemTable;
