//! What items, buckets, filters, placements, the memory table and merges do. The crate has tests alone.
#![tactic(auto)]

#[cfg(test)]
mod buckets;
#[cfg(test)]
mod checks;
#[cfg(test)]
mod filters;
#[cfg(test)]
mod items;
#[cfg(test)]
mod memory_tables;
#[cfg(test)]
mod merges;
#[cfg(test)]
mod placements;
