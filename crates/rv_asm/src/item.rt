//! What an assembler takes in.

use rv_inst::Inst;

/// A word of the code.
#[derive(Clone, Copy, Drop)]
pub enum Item {
    /// A word as it is.
    Word(u32),
    /// A jump or a branch that is yet to be aimed at a label.
    Aimed { inst: Inst, label: u32 },
}
