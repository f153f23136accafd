//! Tables on the device: 64 buckets and a block of filters, written once and then only read.
#![tactic(auto)]

mod building;
mod cutting;
mod extent;
mod faults;
mod filling;
mod filters;
mod lookup;
mod placing;
mod scanning;
mod summary;

pub use building::build;
pub use cutting::tables_of;
pub use extent::{block_in, read_bucket};
pub use faults::{BuildFault, LookFault, ScanFault};
pub use filling::{place_of, sends_in};
pub use filters::{filters_of, read_filters};
pub use lookup::look;
pub use scanning::scan;
pub use summary::entries_of;
