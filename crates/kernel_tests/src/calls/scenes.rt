//! Scenes of refusals: each refusal of each call beside a call that succeeds. Where two refusals are due, the
//! answer is the first in the order of the call's description.

pub mod asking;
pub mod console;
pub mod memory;
pub mod random;
pub mod sequences;
pub mod signalling;
pub mod threads;
