//! The store: puts and deletes into a log and a memory table, tables of the root, and gets.
#![tactic(auto)]

mod acting;
mod building;
mod committing;
mod counts;
mod faults;
mod flushing;
mod getting;
mod laws;
mod making;
mod opening;
mod pressing;
mod store;
mod writing;

pub use acting::{EventView, Outcome};
pub use counts::Stat;
pub use faults::{InitFault, WriteFault};
pub use laws::{goes_compose, open_rests};
pub use making::init;
pub use pressing::stores_rest;
pub use store::Store;
pub use writing::Taken;
