//! What the trie of piles and its changes do. The crate has tests alone.
#![tactic(auto)]

#[cfg(test)]
mod tests;
