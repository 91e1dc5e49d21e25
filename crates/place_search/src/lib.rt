//! A search of all runs of a program: each place that runs come to is visited once, and each way in which a run ends there is noted.
//! Threads settle before that: a local step of a thread outside its sequences is made at once, and no place before it is visited.
//!
//! A place is kept as the entries that led to it, from a place that was visited before, and as its key. It is made again by its events.
#![tactic(auto)]

mod endings;
mod ends;
mod expanding;
mod graph;
mod hopeless;
mod keys;
mod paths;
mod paying;
mod remade;
mod row;
mod saying;
mod searching;
mod settling_steps;
mod sights;
mod stop;
mod task;
mod trying;
mod values;
mod visited;
mod visiting;

pub use searching::search;
