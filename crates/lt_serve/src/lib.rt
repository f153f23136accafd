//! Serving: the lines of a source are acted by a store, a piece at a time, and their replies are given to
//! a sink once the writes before them are durable.
#![tactic(auto)]

mod acting;
mod faults;
mod opening;
mod outcomes;
mod rounds;
mod sending;
mod served;
mod session;
mod turns;

pub use faults::RoundFault;
pub use outcomes::add_outcome;
pub use sending::emit;
pub use served::Served;
pub use session::Session;
pub use turns::serve;
