//! What jobs do over devices in memory. The crate has tests alone.
#![tactic(auto)]

#[cfg(test)]
mod rig;
#[cfg(test)]
mod tests;
