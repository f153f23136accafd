//! The device, and what a crash may leave of it.
#![tactic(auto)]

mod device;
mod history;
pub mod laws;
mod mem_device;
mod pick;
mod steady;
mod store;

pub use device::Device;
pub use mem_device::MemDevice;
pub use pick::Pick;
pub use steady::Steady;
