//! A log of groups of items, each of them gated, over one log area of two.
#![tactic(auto)]

mod clear;
mod group;
mod laws;
mod log;
mod opening;
mod replay;
mod slot;

pub use clear::close_gates;
pub use laws::logs_are_local;
pub use log::{GroupFull, Log};
pub use lt_layout::{Geometry, OpenFault};
