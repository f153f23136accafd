//! Groups: the filters of one column of up to 64 tables in one block.
#![tactic(auto)]

mod columns;
mod fault;
mod group;

pub use columns::read_column;
pub use fault::GroupFault;
pub use group::{fill_column, write_group};
