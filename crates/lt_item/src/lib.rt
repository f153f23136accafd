//! The parts of a key's hash, the order of ranks, and items as bytes.
#![tactic(auto)]

mod hash;
mod laws;
mod rank;
mod spelling;
mod view;

pub use hash::{Parts, parts_of};
pub use laws::writes_in_parts;
pub use lt_terms::Kind;
pub use rank::{Rank, rank_less};
pub use spelling::{item_header, read_item, write_item};
pub use view::{ItemView, KEY_LIMIT, VALUE_LIMIT, cost};
