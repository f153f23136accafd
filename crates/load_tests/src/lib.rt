//! What the stream of a large run is, and what a tally counts. The crate has tests alone.
#![tactic(auto)]

#[cfg(test)]
mod tests;
