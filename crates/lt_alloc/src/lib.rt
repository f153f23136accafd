//! Which extents of a device are free.
#![tactic(auto)]

mod extents;

pub use extents::{Extents, Short};
