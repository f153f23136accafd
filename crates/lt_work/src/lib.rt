//! The work of a store between its calls: one job at most, in flight, and marks of nodes.
#![tactic(auto)]

mod advancing;
mod laws;
mod work;

pub use advancing::{Advanced, Wanted};
pub use laws::{work_begins, work_commits, work_ends, work_outlasts};
pub use work::Work;
