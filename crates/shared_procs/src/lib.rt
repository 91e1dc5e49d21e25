//! Two processes on one machine, with one segment of memory that the instructions of both reach.
#![tactic(auto)]

mod ending;
mod entering;
mod events;
mod half;
mod outcomes;
mod pair;
mod pair_calls;
mod segment;
mod theorems;
mod window;

pub use outcomes::{PairEnd, PairRefused, ProcState};
pub use pair::Pair;
pub use theorems::{
    barriers_return_over_both, both_see_the_same_requests, idle_harts_hold_no_store,
    process_depends_on_what_it_learns, stores_enter_or_wait, waiting_stores_are_of_one_process,
};
