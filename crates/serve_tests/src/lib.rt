//! What lines and rounds of them do. The crate has tests alone.
#![tactic(auto)]

#[cfg(test)]
mod checks;
#[cfg(test)]
mod lines;
#[cfg(test)]
mod rounds;
