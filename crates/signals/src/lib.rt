//! The signals of a process: what is done when one comes, which a thread masks, which are pending, and the
//! frame that a handler finds on its stack (sigaction(2), sigprocmask(2), tkill(2), signal(7), sigreturn(2)).
//!
//! Nothing here takes memory.
#![tactic(auto)]

mod actions;
mod frames;
mod sets;
mod table;
mod theorems;
mod threads;

pub use frames::FrameWrites;
pub use mach_types::Action;
pub use table::Signals;
pub use theorems::{
    handler_returns_to_where_it_was, kill_and_stop_are_never_masked, next_signal_is_the_lowest,
    others_keep_their_signals, sets_have_their_signals, signalling_stays_whole,
    thread_has_its_signals,
};
