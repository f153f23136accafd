//! The top call of the program: serving a store, and making one.
#![tactic(auto)]

mod making;
mod running;
mod status;
mod telling;
mod top;
mod words;

pub use status::Status;
pub use top::lsm_trie;
pub use words::{Task, task_of};
