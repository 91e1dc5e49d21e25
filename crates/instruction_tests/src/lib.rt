//! Tests of the crates from a word to what its hart does: each is tried by what it shows other crates.
#![tactic(auto)]

#[cfg(test)]
mod coding;
#[cfg(test)]
mod execution;
#[cfg(test)]
mod harts;
#[cfg(test)]
mod stores;
