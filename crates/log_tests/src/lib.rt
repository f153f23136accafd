//! What the log does over devices in memory, and the layout, superblocks and extents that it stands on.
//! The crate has tests alone.
#![tactic(auto)]

#[cfg(test)]
mod extents;
#[cfg(test)]
mod geometry;
#[cfg(test)]
mod logs;
#[cfg(test)]
mod superblocks;
