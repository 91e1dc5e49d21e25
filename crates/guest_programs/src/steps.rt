//! The steps that the code of a guest is made of.

use percpu_lib::Line;

/// A block of `percpu_lib`.
#[derive(Clone, Copy, Drop)]
pub enum BlockKind {
    Add,
    Push,
    Pop,
    Alloc,
    Free,
    /// Of four words.
    RingPut,
    /// Of four words.
    RingGet,
}

/// A step of a guest's code.
#[derive(Clone, Copy, Drop)]
pub enum Step {
    /// A line.
    Of(Line),
    /// A block, with its labels from a number on, and with its descriptor at an address.
    Block(BlockKind, u32, u64),
}

/// A step with an instruction, as `inst!(Ld rd = 6, rs1 = 5, imm = 0)`.
macro_rules! inst {
    ($name:ident $($field:ident = $value:expr),*) => {
        Step::Of(Line::Plain(Inst::$name { $($field: $value),* }))
    };
}

/// A branch to a label, as `branch!(Beq rs1 = 5, rs2 = 6 => HERE)`.
macro_rules! branch {
    ($name:ident $($field:ident = $value:expr),* => $label:expr) => {
        Step::Of(Line::Branch(Inst::$name { $($field: $value,)* imm: 0 }, $label))
    };
}

/// The place of a label.
macro_rules! label {
    ($label:expr) => {
        Step::Of(Line::Label($label))
    };
}

/// A call of the kernel.
macro_rules! ecall {
    () => {
        Step::Of(Line::Plain(Inst::Ecall))
    };
}

pub(crate) use branch;
pub(crate) use ecall;
pub(crate) use inst;
pub(crate) use label;
