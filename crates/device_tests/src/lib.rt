//! What devices and streams in memory do, and groups of filters on a device. The crate has tests alone.
#![tactic(auto)]

#[cfg(test)]
mod devices;
#[cfg(test)]
mod groups;
#[cfg(test)]
mod streams;
