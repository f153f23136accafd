//! The edge to the system: a file as a device, a reader as a source and a writer as a sink. A file tells
//! no content. A reader and a writer may tell theirs, but the system's tell none.
#![tactic(auto)]

mod counts;
mod file_device;
mod std_sink;
mod std_source;
#[cfg(test)]
mod tests;

pub use file_device::FileDevice;
pub use std_sink::StdSink;
pub use std_source::StdSource;
