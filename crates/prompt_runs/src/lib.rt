//! Runs in which a signal of a thread's own comes before the thread goes on.
//!
//! Linux delivers a signal before its kernel goes back to the thread. In a block run it may come later: a
//! script says when. In a prompt run it comes at once, as in each run that is drawn from a seed.
#![tactic(auto)]

mod theorems;

pub use theorems::{
    any_run_may_come, no_step_limit_is_read, prompt_runs_go_on, what_is_due_may_come,
};
