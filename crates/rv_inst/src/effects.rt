//! What an instruction asks of its hart.

/// The operation of an AMO: what it makes of the value in memory and that of `rs2`.
#[derive(Clone, Copy, PartialEq, Eq, Drop)]
pub enum AmoOp {
    /// The value of `rs2`.
    Swap,
    /// The sum.
    Add,
    /// Exclusive or.
    Xor,
    /// And.
    And,
    /// Or.
    Or,
    /// The lesser, signed.
    Min,
    /// The greater, signed.
    Max,
    /// The lesser, unsigned.
    MinU,
    /// The greater, unsigned.
    MaxU,
}

/// What an instruction does, as far as its registers and the pc decide it.
///
/// Sizes are 1, 2, 4 or 8 bytes; a value to be written is the low `size` bytes of its register. Where an
/// effect has no pc of its own and doesn't stop the hart, the next instruction is 4 bytes further.
#[derive(Clone, Copy, PartialEq, Eq, Drop)]
pub enum Effect {
    /// `rd` becomes `value`, and the hart goes on at `pc`. A branch has `rd` 0 and `value` 0.
    Next {
        rd: u8,
        value: u64,
        pc: u64,
    },
    /// `rd` becomes the `size` bytes at `at`, sign-extended or zero-extended.
    Load {
        at: u64,
        size: u8,
        signed: bool,
        rd: u8,
    },
    /// The `size` bytes at `at` become `value`.
    Store {
        at: u64,
        size: u8,
        value: u64,
    },
    /// `rd` becomes the bytes at `at`, sign-extended, and they become what `op` makes of them and `value`.
    Amo {
        op: AmoOp,
        at: u64,
        size: u8,
        value: u64,
        rd: u8,
    },
    /// `rd` becomes the bytes at `at`, sign-extended, which are reserved.
    Lr {
        at: u64,
        size: u8,
        rd: u8,
    },
    /// Where the bytes at `at` are still reserved, they become `value` and `rd` becomes 0; else `rd` becomes
    /// 1.
    Sc {
        at: u64,
        size: u8,
        value: u64,
        rd: u8,
    },
    /// A fence; `full` where writes before it must come before reads after it.
    Fence {
        full: bool,
    },
    /// FENCE.I.
    FenceI,
    /// ECALL.
    Call,
    /// EBREAK.
    Break,
    /// A taken branch or a jump whose target isn't a multiple of 4. Nothing is written.
    Misaligned,
}
