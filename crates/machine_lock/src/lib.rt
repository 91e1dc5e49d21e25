//! A turnstile: workers make one log, one turn at a time.
#![tactic(auto)]

mod chronicle;
mod history;
mod lock;
mod pass;
mod plays;
mod turnstile;

pub use chronicle::{Chronicle, Meaning};
pub use history::{Origin, Stage, View};
pub use lock::Turnstile;
pub use pass::Pass;
pub use turnstile::Turn;
