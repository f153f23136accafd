//! A page of 4,096 bytes, a test for zeros, and the two answers of calls that fail with no more to tell.
#![tactic(auto)]

mod block;
mod bytes;
mod errors;
mod page;

pub use bytes::all_zero;
pub use errors::{Failed, NoMemory};
pub use page::Page;
