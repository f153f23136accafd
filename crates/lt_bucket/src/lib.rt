//! Buckets: pages that spell items, and items that own their bytes.
#![tactic(auto)]

mod builder;
mod owned;
mod reading;
mod view;

pub use builder::{BucketBuilder, put_item};
pub use lt_tables::Sends;
pub use owned::{Item, Key, push_all};
pub use reading::Items;
pub use view::{BucketView, Look};
