//! Which node of the trie is to be dealt or rewritten next, and what is remembered of its nodes between jobs.
#![tactic(auto)]

mod candidates;
mod laws;
mod marks;

pub use candidates::{any_twice_full, first_full, first_slack, is_full_at};
pub use laws::{images_are_paced, marks_are_apart, nothing_left};
pub use lt_format::NodeId;
pub use marks::Marks;
