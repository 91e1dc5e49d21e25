//! The effects of RISC-V instructions: what each asks of its hart, as far as registers and pc decide it.
//!
//! [`effect`] decides what an instruction does, [`finish_load`] what a load makes of the bytes that it reads,
//! and [`amo_value`] what an AMO writes. Each is total, takes no memory, and equals the meaning that
//! `rv_inst` gives.
#![tactic(auto)]

mod control;
mod effects;
mod memory;
mod multiply;
mod words;

pub use effects::effect;
pub use memory::{amo_value, finish_load};
pub use rv_inst::{AmoOp, Effect};
