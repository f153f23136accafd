//! Sources of bytes and sinks for them, and both of them in memory.
#![tactic(auto)]

mod counts;
mod laws;
mod mem_sink;
mod mem_source;
mod pieces;
mod sink;
mod source;

pub use laws::{gains_compose, takes_compose};
pub use mem_sink::MemSink;
pub use mem_source::{MemSource, SteadySource};
pub use sink::{Sink, write_all};
pub use source::Source;
