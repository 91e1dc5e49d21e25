//! Runs that are drawn from a seed: which logs they make, and that each event of them is allowed. Nothing here runs.
#![tactic(auto)]

mod manner;
mod theorems;

pub use manner::Manner;
pub use theorems::{
    an_event_is_drawn, drawn_events_are_allowed, drawn_runs_are_one, drawn_runs_are_prompt,
    drawn_runs_go_on, own_signals_come_at_once,
};
