//! Tests of workers: what several of them make of one machine.
#![tactic(auto)]

#[cfg(test)]
mod tally;
#[cfg(test)]
mod workers;
