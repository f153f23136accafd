//! The snapshot in a manifest area: read field by field, and spelled.

mod extents;
mod fields;
pub mod header;
pub mod node;
pub mod reading;
pub mod spelling;
