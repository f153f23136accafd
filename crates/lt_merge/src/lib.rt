//! Lists of items: the newest of each key, and their parts by digit and kind.
#![tactic(auto)]

mod dealing;
mod merging;
mod places;
mod puts;

pub use dealing::{deal_by, digit_of};
pub use merging::newest;
pub use puts::{is_put, without_deletes};
