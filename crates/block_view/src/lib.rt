//! The acts of a log: each restartable sequence as one act with the way that it ended, and each other event by itself.
//!
//! [`acts`] goes through the log once, on a machine that makes its events again; [`counts`] does the same, and says
//! how many acts of each form each hart has. Beside a machine that makes a log, a [`Ledger`] tells of each entry which
//! restartable sequence begins or has ended with it, and a [`Counter`] counts the acts.
#![tactic(auto)]

mod counter;
mod course;
mod following;
mod forms;
mod ledger;
mod passing;
mod tally;
mod theorems;
mod turns;
mod viewing;

pub use block_model::SeqEnd;
pub use counter::Counter;
pub use forms::{Act, Acts, Form, form_word};
pub use ledger::Ledger;
pub use passing::{Ahead, Passed, ahead_of, inside, make_named, seen_after, seen_ahead, step_seen};
pub use tally::Counts;
pub use theorems::{acts_cover_the_log, counts_add_up};
pub use turns::Turn;
pub use viewing::{ViewFault, acts, counts};
