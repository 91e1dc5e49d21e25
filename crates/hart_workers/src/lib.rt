//! Workers: one thread a hart drives a machine that lies in a turnstile.
#![tactic(auto)]

mod start;
mod turns;
mod workers;

pub use workers::drive;
