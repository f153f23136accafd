//! The filters of a table: which keys may lie in it.
#![tactic(auto)]

mod bits;
mod filters;

pub use filters::{FilterPage, covers_at};
