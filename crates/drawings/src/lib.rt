//! Which event comes next in a run that is drawn from a seed: the hart, and what it does.
//!
//! The rules are own. The generator is xoshiro256++ (Blackman and Vigna, "Scrambled linear pseudorandom number
//! generators"), seeded as its authors recommend. Nothing here takes memory.
#![tactic(auto)]

mod drawing;
mod harts;
mod next_event;
mod starting;
mod theorems;

pub use drawing::{Drawing, DrawnEvent};
pub use harts::Harts;
pub use theorems::{
    an_event_is_drawn, drawing_goes_on, drawn_event_is_allowed, lasting_stretches_keep_their_owner,
};
