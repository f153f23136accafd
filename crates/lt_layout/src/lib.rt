//! The superblock, the selector and the gates as pages.
#![tactic(auto)]

mod fault;
mod gate;
mod laws;
mod superblock;

pub use fault::OpenFault;
pub use gate::{gate_open, selected, write_gate};
pub use laws::one_superblock;
pub use lt_format::Geometry;
pub use superblock::{read_super, write_super};
