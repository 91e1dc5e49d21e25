//! Outside vectors: what QEMU 7.2 gave for instructions that the GNU assembler 2.40 made.

use rv_inst::{AmoOp, Inst};

/// Instructions on x1 and x2 into x3, a line each.
macro_rules! on_registers {
    ($($name:ident, $a:expr, $b:expr => $value:expr;)*) => {
        [$((Inst::$name { rd: 3, rs1: 1, rs2: 2 }, $a, $b, $value)),*]
    };
}

/// Instructions on x1 and an immediate, a line each.
macro_rules! on_immediates {
    ($($inst:expr, $a:expr => $value:expr;)*) => {
        [$(($inst, $a, $value)),*]
    };
}

/// Branches on x1 and x2 by 8 bytes back, a line each.
macro_rules! branches {
    ($($name:ident, $a:expr, $b:expr => $is_taken:expr;)*) => {
        [$((Inst::$name { rs1: 1, rs2: 2, imm: -8 }, $a, $b, $is_taken)),*]
    };
}

/// AMOs, a line each.
macro_rules! amos {
    ($($op:ident, $size:expr, $old:expr, $value:expr => $after:expr, $loaded:expr;)*) => {
        [$((AmoOp::$op, $size, $old, $value, $after, $loaded)),*]
    };
}

/// Instructions on x1 and x2 with their values, and what x3 becomes.
pub static REGISTERS: [(Inst, u64, u64, u64); 89] = on_registers! {
    Add, 0x1, 0x2 => 0x3;
    Add, 0xffff_ffff_ffff_ffff, 0x1 => 0x0;
    Add, 0x8000_0000_0000_0000, 0x8000_0000_0000_0000 => 0x0;
    Sub, 0x5, 0x7 => 0xffff_ffff_ffff_fffe;
    Sub, 0x0, 0x1 => 0xffff_ffff_ffff_ffff;
    Sub, 0x8000_0000_0000_0000, 0x1 => 0x7fff_ffff_ffff_ffff;
    Sll, 0x1, 0x3f => 0x8000_0000_0000_0000;
    Sll, 0x1, 0x40 => 0x1;
    Sll, 0x8000_0000_0000_0001, 0x41 => 0x2;
    Slt, 0xffff_ffff_ffff_ffff, 0x0 => 0x1;
    Slt, 0x0, 0xffff_ffff_ffff_ffff => 0x0;
    Slt, 0x8000_0000_0000_0000, 0x7fff_ffff_ffff_ffff => 0x1;
    Sltu, 0xffff_ffff_ffff_ffff, 0x0 => 0x0;
    Sltu, 0x0, 0xffff_ffff_ffff_ffff => 0x1;
    Sltu, 0x3, 0x3 => 0x0;
    Xor, 0xff00_ff00_ff00_ff00, 0x0ff0_0ff0_0ff0_0ff0 => 0xf0f0_f0f0_f0f0_f0f0;
    Srl, 0x8000_0000_0000_0000, 0x3f => 0x1;
    Srl, 0xffff_ffff_ffff_ffff, 0x44 => 0x0fff_ffff_ffff_ffff;
    Sra, 0x8000_0000_0000_0000, 0x3f => 0xffff_ffff_ffff_ffff;
    Sra, 0xffff_ffff_ffff_ff00, 0x4 => 0xffff_ffff_ffff_fff0;
    Sra, 0x4000_0000_0000_0000, 0x3e => 0x1;
    Sra, 0xffff_ffff_ffff_ffff, 0x40 => 0xffff_ffff_ffff_ffff;
    Or, 0xff00_ff00_ff00_ff00, 0x0ff0_0ff0_0ff0_0ff0 => 0xfff0_fff0_fff0_fff0;
    And, 0xff00_ff00_ff00_ff00, 0x0ff0_0ff0_0ff0_0ff0 => 0x0f00_0f00_0f00_0f00;
    Mul, 0xfedc_ba98_7654_3210, 0x0123_4567_89ab_cdef => 0x2236_d88f_e561_8cf0;
    Mul, 0xffff_ffff_ffff_ffff, 0xffff_ffff_ffff_ffff => 0x1;
    Mul, 0x8000_0000_0000_0000, 0x2 => 0x0;
    Mulh, 0xffff_ffff_ffff_ffff, 0xffff_ffff_ffff_ffff => 0x0;
    Mulh, 0x8000_0000_0000_0000, 0x8000_0000_0000_0000 => 0x4000_0000_0000_0000;
    Mulh, 0x8000_0000_0000_0000, 0x7fff_ffff_ffff_ffff => 0xc000_0000_0000_0000;
    Mulh, 0xfedc_ba98_7654_3210, 0x0123_4567_89ab_cdef => 0xfffe_b499_23cc_0953;
    Mulhsu, 0xffff_ffff_ffff_ffff, 0xffff_ffff_ffff_ffff => 0xffff_ffff_ffff_ffff;
    Mulhsu, 0x8000_0000_0000_0000, 0xffff_ffff_ffff_ffff => 0x8000_0000_0000_0000;
    Mulhsu, 0x7fff_ffff_ffff_ffff, 0xffff_ffff_ffff_ffff => 0x7fff_ffff_ffff_fffe;
    Mulhsu, 0xfedc_ba98_7654_3210, 0xfedc_ba98_7654_3210 => 0xfede_05ff_5288_28bc;
    Mulhu, 0xffff_ffff_ffff_ffff, 0xffff_ffff_ffff_ffff => 0xffff_ffff_ffff_fffe;
    Mulhu, 0x8000_0000_0000_0000, 0x2 => 0x1;
    Mulhu, 0xfedc_ba98_7654_3210, 0xfedc_ba98_7654_3210 => 0xfdba_c097_c8dc_5acc;
    Div, 0x14, 0xffff_ffff_ffff_fffa => 0xffff_ffff_ffff_fffd;
    Div, 0xffff_ffff_ffff_ffec, 0x6 => 0xffff_ffff_ffff_fffd;
    Div, 0xffff_ffff_ffff_fff9, 0xffff_ffff_ffff_fffe => 0x3;
    Div, 0x8000_0000_0000_0000, 0xffff_ffff_ffff_ffff => 0x8000_0000_0000_0000;
    Div, 0x5, 0x0 => 0xffff_ffff_ffff_ffff;
    Div, 0x8000_0000_0000_0000, 0x0 => 0xffff_ffff_ffff_ffff;
    Divu, 0x14, 0x6 => 0x3;
    Divu, 0xffff_ffff_ffff_ffec, 0x6 => 0x2aaa_aaaa_aaaa_aaa7;
    Divu, 0x8000_0000_0000_0000, 0xffff_ffff_ffff_ffff => 0x0;
    Divu, 0x5, 0x0 => 0xffff_ffff_ffff_ffff;
    Rem, 0x14, 0xffff_ffff_ffff_fffa => 0x2;
    Rem, 0xffff_ffff_ffff_ffec, 0x6 => 0xffff_ffff_ffff_fffe;
    Rem, 0xffff_ffff_ffff_fff9, 0xffff_ffff_ffff_fffe => 0xffff_ffff_ffff_ffff;
    Rem, 0x8000_0000_0000_0000, 0xffff_ffff_ffff_ffff => 0x0;
    Rem, 0xffff_ffff_ffff_fffb, 0x0 => 0xffff_ffff_ffff_fffb;
    Remu, 0x14, 0x6 => 0x2;
    Remu, 0xffff_ffff_ffff_ffec, 0x6 => 0x2;
    Remu, 0x8000_0000_0000_0000, 0xffff_ffff_ffff_ffff => 0x8000_0000_0000_0000;
    Remu, 0xffff_ffff_ffff_fffb, 0x0 => 0xffff_ffff_ffff_fffb;
    Addw, 0x7fff_ffff, 0x1 => 0xffff_ffff_8000_0000;
    Addw, 0xffff_ffff, 0x1 => 0x0;
    Addw, 0x0000_0001_0000_0000, 0x8000_0000 => 0xffff_ffff_8000_0000;
    Subw, 0x0, 0x1 => 0xffff_ffff_ffff_ffff;
    Subw, 0x8000_0000, 0x1 => 0x7fff_ffff;
    Sllw, 0x1, 0x1f => 0xffff_ffff_8000_0000;
    Sllw, 0x1, 0x20 => 0x1;
    Sllw, 0xffff_ffff_0000_0003, 0x1e => 0xffff_ffff_c000_0000;
    Srlw, 0xffff_ffff_8000_0000, 0x1f => 0x1;
    Srlw, 0xffff_ffff_8000_0000, 0x20 => 0xffff_ffff_8000_0000;
    Srlw, 0x0000_0001_f000_0000, 0x4 => 0x0f00_0000;
    Sraw, 0x8000_0000, 0x1f => 0xffff_ffff_ffff_ffff;
    Sraw, 0xffff_ffff_7fff_ffff, 0x4 => 0x07ff_ffff;
    Sraw, 0xfedc_ba98, 0x24 => 0xffff_ffff_ffed_cba9;
    Mulw, 0x8000_0001, 0x8000_0001 => 0x1;
    Mulw, 0xffff_ffff, 0x3 => 0xffff_ffff_ffff_fffd;
    Mulw, 0x0001_0000, 0x8000 => 0xffff_ffff_8000_0000;
    Divw, 0x8000_0000, 0xffff_ffff => 0xffff_ffff_8000_0000;
    Divw, 0x14, 0xffff_fffa => 0xffff_ffff_ffff_fffd;
    Divw, 0x0000_0001_0000_0014, 0x0000_0007_0000_0000 => 0xffff_ffff_ffff_ffff;
    Divw, 0xffff_ffff_ffff_fff9, 0x2 => 0xffff_ffff_ffff_fffd;
    Divuw, 0x8000_0000, 0xffff_ffff => 0x0;
    Divuw, 0xffff_fff0, 0x1 => 0xffff_ffff_ffff_fff0;
    Divuw, 0x7, 0x0000_0001_0000_0000 => 0xffff_ffff_ffff_ffff;
    Divuw, 0xffff_fffe, 0x2 => 0x7fff_ffff;
    Remw, 0x8000_0000, 0xffff_ffff => 0x0;
    Remw, 0xffff_ffec, 0x6 => 0xffff_ffff_ffff_fffe;
    Remw, 0x8000_0001, 0x0 => 0xffff_ffff_8000_0001;
    Remw, 0xffff_ffff_ffff_fff9, 0x2 => 0xffff_ffff_ffff_ffff;
    Remuw, 0x8000_0000, 0xffff_ffff => 0xffff_ffff_8000_0000;
    Remuw, 0xffff_fff0, 0x8000_0000 => 0x7fff_fff0;
    Remuw, 0x8000_0001, 0x0000_0001_0000_0000 => 0xffff_ffff_8000_0001;
};

/// Instructions on x1 with its value, and what x3 becomes.
pub static IMMEDIATES: [(Inst, u64, u64); 28] = on_immediates! {
    Inst::Addi { rd: 3, rs1: 1, imm: -6 }, 0x5 => 0xffff_ffff_ffff_ffff;
    Inst::Addi { rd: 3, rs1: 1, imm: 1 }, 0xffff_ffff_ffff_ffff => 0x0;
    Inst::Addi { rd: 3, rs1: 1, imm: 2047 }, 0x7fff_ffff_ffff_ffff => 0x8000_0000_0000_07fe;
    Inst::Slti { rd: 3, rs1: 1, imm: -2 }, 0xffff_ffff_ffff_fffd => 0x1;
    Inst::Slti { rd: 3, rs1: 1, imm: -1 }, 0x0 => 0x0;
    Inst::Slti { rd: 3, rs1: 1, imm: -2048 }, 0x8000_0000_0000_0000 => 0x1;
    Inst::Sltiu { rd: 3, rs1: 1, imm: -1 }, 0x5 => 0x1;
    Inst::Sltiu { rd: 3, rs1: 1, imm: -1 }, 0xffff_ffff_ffff_ffff => 0x0;
    Inst::Sltiu { rd: 3, rs1: 1, imm: 1 }, 0x0 => 0x1;
    Inst::Xori { rd: 3, rs1: 1, imm: -1 }, 0x1234 => 0xffff_ffff_ffff_edcb;
    Inst::Ori { rd: 3, rs1: 1, imm: -2048 }, 0x1234 => 0xffff_ffff_ffff_fa34;
    Inst::Andi { rd: 3, rs1: 1, imm: -256 }, 0xffff_ffff_ffff_ffff => 0xffff_ffff_ffff_ff00;
    Inst::Addiw { rd: 3, rs1: 1, imm: 1 }, 0x7fff_ffff => 0xffff_ffff_8000_0000;
    Inst::Addiw { rd: 3, rs1: 1, imm: -1 }, 0xffff_ffff_8000_0000 => 0x7fff_ffff;
    Inst::Addiw { rd: 3, rs1: 1, imm: -6 }, 0x0000_0001_0000_0005 => 0xffff_ffff_ffff_ffff;
    Inst::Slli { rd: 3, rs1: 1, shamt: 63 }, 0x1 => 0x8000_0000_0000_0000;
    Inst::Slli { rd: 3, rs1: 1, shamt: 36 }, 0x1234_5678_9abc_def0 => 0xabcd_ef00_0000_0000;
    Inst::Srli { rd: 3, rs1: 1, shamt: 63 }, 0x8000_0000_0000_0000 => 0x1;
    Inst::Srli { rd: 3, rs1: 1, shamt: 32 }, 0xffff_ffff_ffff_ffff => 0xffff_ffff;
    Inst::Srai { rd: 3, rs1: 1, shamt: 63 }, 0x8000_0000_0000_0000 => 0xffff_ffff_ffff_ffff;
    Inst::Srai { rd: 3, rs1: 1, shamt: 4 }, 0xffff_ffff_ffff_ff00 => 0xffff_ffff_ffff_fff0;
    Inst::Srai { rd: 3, rs1: 1, shamt: 62 }, 0x7fff_ffff_ffff_ffff => 0x1;
    Inst::Slliw { rd: 3, rs1: 1, shamt: 31 }, 0x1 => 0xffff_ffff_8000_0000;
    Inst::Slliw { rd: 3, rs1: 1, shamt: 4 }, 0xfedc_ba98_7654_3211 => 0x6543_2110;
    Inst::Srliw { rd: 3, rs1: 1, shamt: 31 }, 0x0000_0001_8000_0000 => 0x1;
    Inst::Srliw { rd: 3, rs1: 1, shamt: 1 }, 0xffff_ffff => 0x7fff_ffff;
    Inst::Sraiw { rd: 3, rs1: 1, shamt: 31 }, 0x8000_0000 => 0xffff_ffff_ffff_ffff;
    Inst::Sraiw { rd: 3, rs1: 1, shamt: 3 }, 0x7fff_ffff_0000_0040 => 0x8;
};

/// Branches on x1 and x2 with their values, and whether each is taken.
pub static BRANCHES: [(Inst, u64, u64, bool); 30] = branches! {
    Beq, 0x1, 0x2 => false;
    Beq, 0x2, 0x1 => false;
    Beq, 0x3, 0x3 => true;
    Beq, 0xffff_ffff_ffff_ffff, 0x1 => false;
    Beq, 0x1, 0xffff_ffff_ffff_ffff => false;
    Bne, 0x1, 0x2 => true;
    Bne, 0x2, 0x1 => true;
    Bne, 0x3, 0x3 => false;
    Bne, 0xffff_ffff_ffff_ffff, 0x1 => true;
    Bne, 0x1, 0xffff_ffff_ffff_ffff => true;
    Blt, 0x1, 0x2 => true;
    Blt, 0x2, 0x1 => false;
    Blt, 0x3, 0x3 => false;
    Blt, 0xffff_ffff_ffff_ffff, 0x1 => true;
    Blt, 0x1, 0xffff_ffff_ffff_ffff => false;
    Bge, 0x1, 0x2 => false;
    Bge, 0x2, 0x1 => true;
    Bge, 0x3, 0x3 => true;
    Bge, 0xffff_ffff_ffff_ffff, 0x1 => false;
    Bge, 0x1, 0xffff_ffff_ffff_ffff => true;
    Bltu, 0x1, 0x2 => true;
    Bltu, 0x2, 0x1 => false;
    Bltu, 0x3, 0x3 => false;
    Bltu, 0xffff_ffff_ffff_ffff, 0x1 => false;
    Bltu, 0x1, 0xffff_ffff_ffff_ffff => true;
    Bgeu, 0x1, 0x2 => false;
    Bgeu, 0x2, 0x1 => true;
    Bgeu, 0x3, 0x3 => true;
    Bgeu, 0xffff_ffff_ffff_ffff, 0x1 => true;
    Bgeu, 0x1, 0xffff_ffff_ffff_ffff => false;
};

/// Loads: the size, whether signed, the 8 bytes at the address, and what rd becomes.
pub static LOADS: [(u8, bool, u64, u64); 14] = [
    (1, true, 0x8182_8384_8586_8788, 0xffff_ffff_ffff_ff88),
    (1, true, 0x7172_7374_7576_7778, 0x78),
    (1, false, 0x8182_8384_8586_8788, 0x88),
    (1, false, 0x7172_7374_7576_7778, 0x78),
    (2, true, 0x8182_8384_8586_8788, 0xffff_ffff_ffff_8788),
    (2, true, 0x7172_7374_7576_7778, 0x7778),
    (2, false, 0x8182_8384_8586_8788, 0x8788),
    (2, false, 0x7172_7374_7576_7778, 0x7778),
    (4, true, 0x8182_8384_8586_8788, 0xffff_ffff_8586_8788),
    (4, true, 0x7172_7374_7576_7778, 0x7576_7778),
    (4, false, 0x8182_8384_8586_8788, 0x8586_8788),
    (4, false, 0x7172_7374_7576_7778, 0x7576_7778),
    (8, true, 0x8182_8384_8586_8788, 0x8182_8384_8586_8788),
    (8, true, 0x7172_7374_7576_7778, 0x7172_7374_7576_7778),
];

/// AMOs: the operation, the size, the 8 bytes at the address, rs2; the bytes of that size after it, and what
/// rd becomes.
pub static AMOS: [(AmoOp, u8, u64, u64, u64, u64); 54] = amos! {
    Swap, 4, 0x1111_1111_8000_0000, 0x2222_2222_0000_0001 => 0x1, 0xffff_ffff_8000_0000;
    Swap, 4, 0x7fff_ffff, 0xffff_ffff_0000_0001 => 0x1, 0x7fff_ffff;
    Swap, 4, 0xffff_ffff, 0x5 => 0x5, 0xffff_ffff_ffff_ffff;
    Swap, 8, 0x8000_0000_0000_0000, 0x1 => 0x1, 0x8000_0000_0000_0000;
    Swap, 8, 0x7fff_ffff_ffff_ffff, 0x1 => 0x1, 0x7fff_ffff_ffff_ffff;
    Swap, 8, 0xfedc_ba98_7654_3210, 0x0123_4567_89ab_cdef => 0x0123_4567_89ab_cdef, 0xfedc_ba98_7654_3210;
    Add, 4, 0x1111_1111_8000_0000, 0x2222_2222_0000_0001 => 0x8000_0001, 0xffff_ffff_8000_0000;
    Add, 4, 0x7fff_ffff, 0xffff_ffff_0000_0001 => 0x8000_0000, 0x7fff_ffff;
    Add, 4, 0xffff_ffff, 0x5 => 0x4, 0xffff_ffff_ffff_ffff;
    Add, 8, 0x8000_0000_0000_0000, 0x1 => 0x8000_0000_0000_0001, 0x8000_0000_0000_0000;
    Add, 8, 0x7fff_ffff_ffff_ffff, 0x1 => 0x8000_0000_0000_0000, 0x7fff_ffff_ffff_ffff;
    Add, 8, 0xfedc_ba98_7654_3210, 0x0123_4567_89ab_cdef => 0xffff_ffff_ffff_ffff, 0xfedc_ba98_7654_3210;
    Xor, 4, 0x1111_1111_8000_0000, 0x2222_2222_0000_0001 => 0x8000_0001, 0xffff_ffff_8000_0000;
    Xor, 4, 0x7fff_ffff, 0xffff_ffff_0000_0001 => 0x7fff_fffe, 0x7fff_ffff;
    Xor, 4, 0xffff_ffff, 0x5 => 0xffff_fffa, 0xffff_ffff_ffff_ffff;
    Xor, 8, 0x8000_0000_0000_0000, 0x1 => 0x8000_0000_0000_0001, 0x8000_0000_0000_0000;
    Xor, 8, 0x7fff_ffff_ffff_ffff, 0x1 => 0x7fff_ffff_ffff_fffe, 0x7fff_ffff_ffff_ffff;
    Xor, 8, 0xfedc_ba98_7654_3210, 0x0123_4567_89ab_cdef => 0xffff_ffff_ffff_ffff, 0xfedc_ba98_7654_3210;
    And, 4, 0x1111_1111_8000_0000, 0x2222_2222_0000_0001 => 0x0, 0xffff_ffff_8000_0000;
    And, 4, 0x7fff_ffff, 0xffff_ffff_0000_0001 => 0x1, 0x7fff_ffff;
    And, 4, 0xffff_ffff, 0x5 => 0x5, 0xffff_ffff_ffff_ffff;
    And, 8, 0x8000_0000_0000_0000, 0x1 => 0x0, 0x8000_0000_0000_0000;
    And, 8, 0x7fff_ffff_ffff_ffff, 0x1 => 0x1, 0x7fff_ffff_ffff_ffff;
    And, 8, 0xfedc_ba98_7654_3210, 0x0123_4567_89ab_cdef => 0x0, 0xfedc_ba98_7654_3210;
    Or, 4, 0x1111_1111_8000_0000, 0x2222_2222_0000_0001 => 0x8000_0001, 0xffff_ffff_8000_0000;
    Or, 4, 0x7fff_ffff, 0xffff_ffff_0000_0001 => 0x7fff_ffff, 0x7fff_ffff;
    Or, 4, 0xffff_ffff, 0x5 => 0xffff_ffff, 0xffff_ffff_ffff_ffff;
    Or, 8, 0x8000_0000_0000_0000, 0x1 => 0x8000_0000_0000_0001, 0x8000_0000_0000_0000;
    Or, 8, 0x7fff_ffff_ffff_ffff, 0x1 => 0x7fff_ffff_ffff_ffff, 0x7fff_ffff_ffff_ffff;
    Or, 8, 0xfedc_ba98_7654_3210, 0x0123_4567_89ab_cdef => 0xffff_ffff_ffff_ffff, 0xfedc_ba98_7654_3210;
    Min, 4, 0x1111_1111_8000_0000, 0x2222_2222_0000_0001 => 0x8000_0000, 0xffff_ffff_8000_0000;
    Min, 4, 0x7fff_ffff, 0xffff_ffff_0000_0001 => 0x1, 0x7fff_ffff;
    Min, 4, 0xffff_ffff, 0x5 => 0xffff_ffff, 0xffff_ffff_ffff_ffff;
    Min, 8, 0x8000_0000_0000_0000, 0x1 => 0x8000_0000_0000_0000, 0x8000_0000_0000_0000;
    Min, 8, 0x7fff_ffff_ffff_ffff, 0x1 => 0x1, 0x7fff_ffff_ffff_ffff;
    Min, 8, 0xfedc_ba98_7654_3210, 0x0123_4567_89ab_cdef => 0xfedc_ba98_7654_3210, 0xfedc_ba98_7654_3210;
    Max, 4, 0x1111_1111_8000_0000, 0x2222_2222_0000_0001 => 0x1, 0xffff_ffff_8000_0000;
    Max, 4, 0x7fff_ffff, 0xffff_ffff_0000_0001 => 0x7fff_ffff, 0x7fff_ffff;
    Max, 4, 0xffff_ffff, 0x5 => 0x5, 0xffff_ffff_ffff_ffff;
    Max, 8, 0x8000_0000_0000_0000, 0x1 => 0x1, 0x8000_0000_0000_0000;
    Max, 8, 0x7fff_ffff_ffff_ffff, 0x1 => 0x7fff_ffff_ffff_ffff, 0x7fff_ffff_ffff_ffff;
    Max, 8, 0xfedc_ba98_7654_3210, 0x0123_4567_89ab_cdef => 0x0123_4567_89ab_cdef, 0xfedc_ba98_7654_3210;
    MinU, 4, 0x1111_1111_8000_0000, 0x2222_2222_0000_0001 => 0x1, 0xffff_ffff_8000_0000;
    MinU, 4, 0x7fff_ffff, 0xffff_ffff_0000_0001 => 0x1, 0x7fff_ffff;
    MinU, 4, 0xffff_ffff, 0x5 => 0x5, 0xffff_ffff_ffff_ffff;
    MinU, 8, 0x8000_0000_0000_0000, 0x1 => 0x1, 0x8000_0000_0000_0000;
    MinU, 8, 0x7fff_ffff_ffff_ffff, 0x1 => 0x1, 0x7fff_ffff_ffff_ffff;
    MinU, 8, 0xfedc_ba98_7654_3210, 0x0123_4567_89ab_cdef => 0x0123_4567_89ab_cdef, 0xfedc_ba98_7654_3210;
    MaxU, 4, 0x1111_1111_8000_0000, 0x2222_2222_0000_0001 => 0x8000_0000, 0xffff_ffff_8000_0000;
    MaxU, 4, 0x7fff_ffff, 0xffff_ffff_0000_0001 => 0x7fff_ffff, 0x7fff_ffff;
    MaxU, 4, 0xffff_ffff, 0x5 => 0xffff_ffff, 0xffff_ffff_ffff_ffff;
    MaxU, 8, 0x8000_0000_0000_0000, 0x1 => 0x8000_0000_0000_0000, 0x8000_0000_0000_0000;
    MaxU, 8, 0x7fff_ffff_ffff_ffff, 0x1 => 0x7fff_ffff_ffff_ffff, 0x7fff_ffff_ffff_ffff;
    MaxU, 8, 0xfedc_ba98_7654_3210, 0x0123_4567_89ab_cdef => 0xfedc_ba98_7654_3210, 0xfedc_ba98_7654_3210;
};
