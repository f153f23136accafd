//! What a search along a key's path does over devices in memory. The crate has tests alone.
#![tactic(auto)]

#[cfg(test)]
mod tests;
