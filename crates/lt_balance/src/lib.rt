//! Which columns of a table send items, where each sends, and where a list is cut into tables.
#![tactic(auto)]

mod columns;
mod entries;
mod plans;
mod sendings;
mod tables;

pub use entries::{are_entries, parts_are_entries};
pub use lt_tables::{ColumnPlan, Entry};
pub use plans::{Placement, place};
pub use tables::cut;
