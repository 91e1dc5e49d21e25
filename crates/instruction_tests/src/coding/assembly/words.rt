//! Words from outside, one of each format: what GNU as 2.40 gives for the source beside each of them. That
//! every other word is right too, the contract of `encode` says over `decode`, whose tests have a word for
//! each instruction.

use rv_asm::encode;
use rv_inst::Inst;

/// A table of instructions and their words, a line each.
macro_rules! rows {
    ($($inst:expr => $word:expr;)*) => {
        [$(($inst, $word)),*]
    };
}

const WORDS: [(Inst, u32); 12] = rows! {
    Inst::Lui { rd: 31, imm: -2147483648 } => 0x80000fb7; // lui x31, 0x80000
    Inst::Jal { rd: 16, imm: -349526 } => 0xaabaa86f; // jal x16, .-349526
    Inst::Jalr { rd: 1, rs1: 2, imm: -2048 } => 0x800100e7; // jalr x1, x2, -2048
    Inst::Bltu { rs1: 22, rs2: 16, imm: -1366 } => 0xab0b65e3; // bltu x22, x16, .-1366
    Inst::Sh { rs1: 6, rs2: 27, imm: 1365 } => 0x55b31aa3; // sh x27, 1365(x6)
    Inst::Srai { rd: 29, rs1: 27, shamt: 63 } => 0x43fdde93; // srai x29, x27, 63
    Inst::Sraw { rd: 14, rs1: 26, rs2: 5 } => 0x405d573b; // sraw x14, x26, x5
    Inst::LrD { rd: 10, rs1: 11 } => 0x1005b52f; // lr.d x10, (x11)
    Inst::AmoMaxuW { rd: 25, rs1: 23, rs2: 12 } => 0xe0cbacaf; // amomaxu.w x25, x12, (x23)
    Inst::Fence { fm: 8, pred: 3, succ: 3 } => 0x8330000f; // fence.tso
    Inst::FenceI => 0x0000100f; // fence.i
    Inst::Ebreak => 0x00100073; // ebreak
};

#[test]
fn encodes_words(rt: HostRuntime) {
    for (inst, word) in &WORDS {
        assert!(rt; encode(inst) == Some(*word), "at {word:x}");
    }
}
