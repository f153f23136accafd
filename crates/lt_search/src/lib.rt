//! Look-ups along a key's path through the trie.
#![tactic(auto)]

mod groups;
mod kept;
mod laws;
mod paths;
mod tables;
mod version;

pub use kept::InnerFilters;
pub use laws::kept_filters_see_the_same;
pub use paths::search;
pub use version::{Version, show, value_len};
