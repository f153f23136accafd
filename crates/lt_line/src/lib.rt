//! The line language: lines out of pieces of any size, the command that a line is, and the replies that
//! wait to be written.
#![tactic(auto)]

mod command;
mod gen_source;
mod generator;
mod laws;
mod lines;
mod replies;
mod tally;

pub use command::{Command, read_command};
pub use gen_source::GenSource;
pub use laws::kept_is_enough;
pub use lines::Lines;
pub use lt_language::Bad;
pub use replies::Replies;
pub use tally::{Summary, Tally};
