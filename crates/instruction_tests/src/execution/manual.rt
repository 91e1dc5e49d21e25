//! Cases of the RISC-V manual's text, worked by hand.

use rv_inst::{AmoOp, Effect, Inst};

/// Instructions with the values of x1 and x2, and their effects, a line each.
macro_rules! effects {
    ($($inst:expr, $a:expr, $b:expr => $effect:expr;)*) => {
        [$(($inst, $a, $b, $effect)),*]
    };
}

/// Instructions at 0x1000 with the values of x1 and x2, and what they do.
pub static EFFECTS: [(Inst, u64, u64, Effect); 24] = effects! {
    // The upper immediate is sign-extended; AUIPC adds it to the pc.
    Inst::Lui { rd: 5, imm: -0x8000_0000 }, 0, 0 =>
        Effect::Next { rd: 5, value: 0xffff_ffff_8000_0000, pc: 0x1004 };
    Inst::Auipc { rd: 5, imm: -0x2000 }, 0, 0 =>
        Effect::Next { rd: 5, value: 0xffff_ffff_ffff_f000, pc: 0x1004 };
    // A jump goes back, or to a target that isn't a multiple of 4.
    Inst::Jal { rd: 1, imm: -0x1000 }, 0, 0 => Effect::Next { rd: 1, value: 0x1004, pc: 0 };
    Inst::Jal { rd: 1, imm: 6 }, 0, 0 => Effect::Misaligned;
    // JALR clears bit 0 of its target and reads its register before it writes it.
    Inst::Jalr { rd: 1, rs1: 1, imm: 0 }, 0x2001, 0 => Effect::Next { rd: 1, value: 0x1004, pc: 0x2000 };
    Inst::Jalr { rd: 0, rs1: 1, imm: -1 }, 0x2004, 0 => Effect::Misaligned;
    // A branch to a wrong target does nothing wrong where it isn't taken.
    Inst::Beq { rs1: 1, rs2: 2, imm: 2 }, 7, 7 => Effect::Misaligned;
    Inst::Beq { rs1: 1, rs2: 2, imm: 2 }, 7, 8 => Effect::Next { rd: 0, value: 0, pc: 0x1004 };
    // Addresses wrap; a store has the low bytes of its register.
    Inst::Lhu { rd: 9, rs1: 1, imm: -4 }, 2, 0 =>
        Effect::Load { at: 0xffff_ffff_ffff_fffe, size: 2, signed: false, rd: 9 };
    Inst::Lw { rd: 9, rs1: 1, imm: 2047 }, 1, 0 => Effect::Load { at: 0x800, size: 4, signed: true, rd: 9 };
    Inst::Sb { rs1: 1, rs2: 2, imm: 1 }, 0x10, 0x1234 => Effect::Store { at: 0x11, size: 1, value: 0x34 };
    Inst::Sd { rs1: 1, rs2: 2, imm: 8 }, 0x10, 0xffff_ffff_ffff_ff00 =>
        Effect::Store { at: 0x18, size: 8, value: 0xffff_ffff_ffff_ff00 };
    // The A instructions have no immediate; on words rs2 has 32 bits.
    Inst::LrW { rd: 4, rs1: 1 }, 0x40, 0 => Effect::Lr { at: 0x40, size: 4, rd: 4 };
    Inst::ScW { rd: 4, rs1: 1, rs2: 2 }, 0x40, 0x1_0000_0002 =>
        Effect::Sc { at: 0x40, size: 4, value: 2, rd: 4 };
    Inst::AmoMaxuD { rd: 4, rs1: 1, rs2: 2 }, 0x40, 9 =>
        Effect::Amo { op: AmoOp::MaxU, at: 0x40, size: 8, value: 9, rd: 4 };
    // x0 reads 0.
    Inst::Add { rd: 3, rs1: 0, rs2: 2 }, 5, 6 => Effect::Next { rd: 3, value: 6, pc: 0x1004 };
    // FENCE RW,RW and FENCE W,R are full; FENCE R,RW and FENCE W,W and FENCE.TSO aren't; mode 8 with other
    // sets is mode 0.
    Inst::Fence { fm: 0, pred: 3, succ: 3 }, 0, 0 => Effect::Fence { full: true };
    Inst::Fence { fm: 0, pred: 1, succ: 2 }, 0, 0 => Effect::Fence { full: true };
    Inst::Fence { fm: 0, pred: 2, succ: 3 }, 0, 0 => Effect::Fence { full: false };
    Inst::Fence { fm: 0, pred: 1, succ: 1 }, 0, 0 => Effect::Fence { full: false };
    Inst::Fence { fm: 8, pred: 3, succ: 3 }, 0, 0 => Effect::Fence { full: false };
    Inst::Fence { fm: 8, pred: 15, succ: 3 }, 0, 0 => Effect::Fence { full: true };
    Inst::Ecall, 0, 0 => Effect::Call;
    Inst::Ebreak, 0, 0 => Effect::Break;
};
