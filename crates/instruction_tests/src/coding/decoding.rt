//! Tests of `rv_decode`, words from outside: what GNU as 2.40 gives for the source beside each of them.

use rv_asm::encode;
use rv_decode::decode;
use rv_inst::Inst;
use std::process::Abort;

/// A table of words and their instructions, a line each.
macro_rules! rows {
    ($($word:expr => $inst:expr;)*) => {
        [$(($word, $inst)),*]
    };
}

const UPPER: [(u32, Inst); 9] = rows! {
    0x123452b7 => Inst::Lui { rd: 5, imm: 305418240 }; // lui x5, 0x12345
    0x80000fb7 => Inst::Lui { rd: 31, imm: -2147483648 }; // lui x31, 0x80000
    0x7ffff0b7 => Inst::Lui { rd: 1, imm: 2147479552 }; // lui x1, 0x7ffff
    0xfffff037 => Inst::Lui { rd: 0, imm: -4096 }; // lui x0, 0xfffff
    0x000018b7 => Inst::Lui { rd: 17, imm: 4096 }; // lui x17, 0x1
    0xabcde517 => Inst::Auipc { rd: 10, imm: -1412571136 }; // auipc x10, 0xabcde
    0x80000017 => Inst::Auipc { rd: 0, imm: -2147483648 }; // auipc x0, 0x80000
    0x7fffff17 => Inst::Auipc { rd: 30, imm: 2147479552 }; // auipc x30, 0x7ffff
    0x00000497 => Inst::Auipc { rd: 9, imm: 0 }; // auipc x9, 0x0
};

const JUMPS: [(u32, Inst); 11] = rows! {
    0x800000ef => Inst::Jal { rd: 1, imm: -1048576 }; // jal x1, .-1048576
    0x7fffffef => Inst::Jal { rd: 31, imm: 1048574 }; // jal x31, .+1048574
    0xfffff06f => Inst::Jal { rd: 0, imm: -2 }; // jal x0, .-2
    0x002002ef => Inst::Jal { rd: 5, imm: 2 }; // jal x5, .+2
    0x0010056f => Inst::Jal { rd: 10, imm: 2048 }; // jal x10, .+2048
    0x000011ef => Inst::Jal { rd: 3, imm: 4096 }; // jal x3, .+4096
    0xaabaa86f => Inst::Jal { rd: 16, imm: -349526 }; // jal x16, .-349526
    0x554553ef => Inst::Jal { rd: 7, imm: 349524 }; // jal x7, .+349524
    0x800100e7 => Inst::Jalr { rd: 1, rs1: 2, imm: -2048 }; // jalr x1, x2, -2048
    0x7fff8067 => Inst::Jalr { rd: 0, rs1: 31, imm: 2047 }; // jalr x0, x31, 2047
    0xfff50ae7 => Inst::Jalr { rd: 21, rs1: 10, imm: -1 }; // jalr x21, x10, -1
};

const BRANCHES: [(u32, Inst); 10] = rows! {
    0x81f08063 => Inst::Beq { rs1: 1, rs2: 31, imm: -4096 }; // beq x1, x31, .-4096
    0x7e620fe3 => Inst::Beq { rs1: 4, rs2: 6, imm: 4094 }; // beq x4, x6, .+4094
    0x7ed38ee3 => Inst::Beq { rs1: 7, rs2: 13, imm: 4092 }; // beq x7, x13, .+4092
    0xff451fe3 => Inst::Bne { rs1: 10, rs2: 20, imm: -2 }; // bne x10, x20, .-2
    0x01b690e3 => Inst::Bne { rs1: 13, rs2: 27, imm: 2048 }; // bne x13, x27, .+2048
    0x802840e3 => Inst::Blt { rs1: 16, rs2: 2, imm: -2048 }; // blt x16, x2, .-2048
    0x5499db63 => Inst::Bge { rs1: 19, rs2: 9, imm: 1366 }; // bge x19, x9, .+1366
    0xab0b65e3 => Inst::Bltu { rs1: 22, rs2: 16, imm: -1366 }; // bltu x22, x16, .-1366
    0x2b7cf5e3 => Inst::Bgeu { rs1: 25, rs2: 23, imm: 2730 }; // bgeu x25, x23, .+2730
    0x03ee7063 => Inst::Bgeu { rs1: 28, rs2: 30, imm: 32 }; // bgeu x28, x30, .+32
};

const LOADS: [(u32, Inst); 9] = rows! {
    0x001f8183 => Inst::Lb { rd: 3, rs1: 31, imm: 1 }; // lb x3, 1(x31)
    0xefef1383 => Inst::Lh { rd: 7, rs1: 30, imm: -258 }; // lh x7, -258(x30)
    0x203ea583 => Inst::Lw { rd: 11, rs1: 29, imm: 515 }; // lw x11, 515(x29)
    0xcfce3783 => Inst::Ld { rd: 15, rs1: 28, imm: -772 }; // ld x15, -772(x28)
    0x405dc983 => Inst::Lbu { rd: 19, rs1: 27, imm: 1029 }; // lbu x19, 1029(x27)
    0xafad5b83 => Inst::Lhu { rd: 23, rs1: 26, imm: -1286 }; // lhu x23, -1286(x26)
    0x607ced83 => Inst::Lwu { rd: 27, rs1: 25, imm: 1543 }; // lwu x27, 1543(x25)
    0x80003f83 => Inst::Ld { rd: 31, rs1: 0, imm: -2048 }; // ld x31, -2048(x0)
    0x7fff8003 => Inst::Lb { rd: 0, rs1: 31, imm: 2047 }; // lb x0, 2047(x31)
};

const STORES: [(u32, Inst); 7] = rows! {
    0xabf08523 => Inst::Sb { rs1: 1, rs2: 31, imm: -1366 }; // sb x31, -1366(x1)
    0x55b31aa3 => Inst::Sh { rs1: 6, rs2: 27, imm: 1365 }; // sh x27, 1365(x6)
    0x0175afa3 => Inst::Sw { rs1: 11, rs2: 23, imm: 31 }; // sw x23, 31(x11)
    0x03383023 => Inst::Sd { rs1: 16, rs2: 19, imm: 32 }; // sd x19, 32(x16)
    0x80fab023 => Inst::Sd { rs1: 21, rs2: 15, imm: -2048 }; // sd x15, -2048(x21)
    0x7ebd0fa3 => Inst::Sb { rs1: 26, rs2: 11, imm: 2047 }; // sb x11, 2047(x26)
    0xfe7fafa3 => Inst::Sw { rs1: 31, rs2: 7, imm: -1 }; // sw x7, -1(x31)
};

const IMMEDIATES: [(u32, Inst); 17] = rows! {
    0x007f0113 => Inst::Addi { rd: 2, rs1: 30, imm: 7 }; // addi x2, x30, 7
    0xecdda313 => Inst::Slti { rd: 6, rs1: 27, imm: -307 }; // slti x6, x27, -307
    0x25fc3513 => Inst::Sltiu { rd: 10, rs1: 24, imm: 607 }; // sltiu x10, x24, 607
    0xc75ac713 => Inst::Xori { rd: 14, rs1: 21, imm: -907 }; // xori x14, x21, -907
    0x4b796913 => Inst::Ori { rd: 18, rs1: 18, imm: 1207 }; // ori x18, x18, 1207
    0xa1d7fb13 => Inst::Andi { rd: 22, rs1: 15, imm: -1507 }; // andi x22, x15, -1507
    0x70f60d1b => Inst::Addiw { rd: 26, rs1: 12, imm: 1807 }; // addiw x26, x12, 1807
    0x80010093 => Inst::Addi { rd: 1, rs1: 2, imm: -2048 }; // addi x1, x2, -2048
    0x80080f9b => Inst::Addiw { rd: 31, rs1: 16, imm: -2048 }; // addiw x31, x16, -2048
    0x7ff10093 => Inst::Addi { rd: 1, rs1: 2, imm: 2047 }; // addi x1, x2, 2047
    0x7ff80f9b => Inst::Addiw { rd: 31, rs1: 16, imm: 2047 }; // addiw x31, x16, 2047
    0xfff10093 => Inst::Addi { rd: 1, rs1: 2, imm: -1 }; // addi x1, x2, -1
    0xfff80f9b => Inst::Addiw { rd: 31, rs1: 16, imm: -1 }; // addiw x31, x16, -1
    0x00010093 => Inst::Addi { rd: 1, rs1: 2, imm: 0 }; // addi x1, x2, 0
    0x00080f9b => Inst::Addiw { rd: 31, rs1: 16, imm: 0 }; // addiw x31, x16, 0
    0x80007793 => Inst::Andi { rd: 15, rs1: 0, imm: -2048 }; // andi x15, x0, -2048
    0xfff4b413 => Inst::Sltiu { rd: 8, rs1: 9, imm: -1 }; // sltiu x8, x9, -1
};

const SHIFTS: [(u32, Inst); 24] = rows! {
    0x000f9093 => Inst::Slli { rd: 1, rs1: 31, shamt: 0 }; // slli x1, x31, 0
    0x001f1413 => Inst::Slli { rd: 8, rs1: 30, shamt: 1 }; // slli x8, x30, 1
    0x01fe9793 => Inst::Slli { rd: 15, rs1: 29, shamt: 31 }; // slli x15, x29, 31
    0x020e1b13 => Inst::Slli { rd: 22, rs1: 28, shamt: 32 }; // slli x22, x28, 32
    0x03fd9e93 => Inst::Slli { rd: 29, rs1: 27, shamt: 63 }; // slli x29, x27, 63
    0x000fd093 => Inst::Srli { rd: 1, rs1: 31, shamt: 0 }; // srli x1, x31, 0
    0x001f5413 => Inst::Srli { rd: 8, rs1: 30, shamt: 1 }; // srli x8, x30, 1
    0x01fed793 => Inst::Srli { rd: 15, rs1: 29, shamt: 31 }; // srli x15, x29, 31
    0x020e5b13 => Inst::Srli { rd: 22, rs1: 28, shamt: 32 }; // srli x22, x28, 32
    0x03fdde93 => Inst::Srli { rd: 29, rs1: 27, shamt: 63 }; // srli x29, x27, 63
    0x400fd093 => Inst::Srai { rd: 1, rs1: 31, shamt: 0 }; // srai x1, x31, 0
    0x401f5413 => Inst::Srai { rd: 8, rs1: 30, shamt: 1 }; // srai x8, x30, 1
    0x41fed793 => Inst::Srai { rd: 15, rs1: 29, shamt: 31 }; // srai x15, x29, 31
    0x420e5b13 => Inst::Srai { rd: 22, rs1: 28, shamt: 32 }; // srai x22, x28, 32
    0x43fdde93 => Inst::Srai { rd: 29, rs1: 27, shamt: 63 }; // srai x29, x27, 63
    0x000e911b => Inst::Slliw { rd: 2, rs1: 29, shamt: 0 }; // slliw x2, x29, 0
    0x010e159b => Inst::Slliw { rd: 11, rs1: 28, shamt: 16 }; // slliw x11, x28, 16
    0x01fd9a1b => Inst::Slliw { rd: 20, rs1: 27, shamt: 31 }; // slliw x20, x27, 31
    0x000ed11b => Inst::Srliw { rd: 2, rs1: 29, shamt: 0 }; // srliw x2, x29, 0
    0x010e559b => Inst::Srliw { rd: 11, rs1: 28, shamt: 16 }; // srliw x11, x28, 16
    0x01fdda1b => Inst::Srliw { rd: 20, rs1: 27, shamt: 31 }; // srliw x20, x27, 31
    0x400ed11b => Inst::Sraiw { rd: 2, rs1: 29, shamt: 0 }; // sraiw x2, x29, 0
    0x410e559b => Inst::Sraiw { rd: 11, rs1: 28, shamt: 16 }; // sraiw x11, x28, 16
    0x41fdda1b => Inst::Sraiw { rd: 20, rs1: 27, shamt: 31 }; // sraiw x20, x27, 31
};

const REGISTERS: [(u32, Inst); 30] = rows! {
    0x005f80b3 => Inst::Add { rd: 1, rs1: 31, rs2: 5 }; // add x1, x31, x5
    0x410f0233 => Inst::Sub { rd: 4, rs1: 30, rs2: 16 }; // sub x4, x30, x16
    0x01be93b3 => Inst::Sll { rd: 7, rs1: 29, rs2: 27 }; // sll x7, x29, x27
    0x006e2533 => Inst::Slt { rd: 10, rs1: 28, rs2: 6 }; // slt x10, x28, x6
    0x011db6b3 => Inst::Sltu { rd: 13, rs1: 27, rs2: 17 }; // sltu x13, x27, x17
    0x01cd4833 => Inst::Xor { rd: 16, rs1: 26, rs2: 28 }; // xor x16, x26, x28
    0x007cd9b3 => Inst::Srl { rd: 19, rs1: 25, rs2: 7 }; // srl x19, x25, x7
    0x412c5b33 => Inst::Sra { rd: 22, rs1: 24, rs2: 18 }; // sra x22, x24, x18
    0x01dbecb3 => Inst::Or { rd: 25, rs1: 23, rs2: 29 }; // or x25, x23, x29
    0x008b7e33 => Inst::And { rd: 28, rs1: 22, rs2: 8 }; // and x28, x22, x8
    0x026e0233 => Inst::Mul { rd: 4, rs1: 28, rs2: 6 }; // mul x4, x28, x6
    0x033d93b3 => Inst::Mulh { rd: 7, rs1: 27, rs2: 19 }; // mulh x7, x27, x19
    0x020d2533 => Inst::Mulhsu { rd: 10, rs1: 26, rs2: 0 }; // mulhsu x10, x26, x0
    0x02dcb6b3 => Inst::Mulhu { rd: 13, rs1: 25, rs2: 13 }; // mulhu x13, x25, x13
    0x03ac4833 => Inst::Div { rd: 16, rs1: 24, rs2: 26 }; // div x16, x24, x26
    0x027bd9b3 => Inst::Divu { rd: 19, rs1: 23, rs2: 7 }; // divu x19, x23, x7
    0x034b6b33 => Inst::Rem { rd: 22, rs1: 22, rs2: 20 }; // rem x22, x22, x20
    0x021afcb3 => Inst::Remu { rd: 25, rs1: 21, rs2: 1 }; // remu x25, x21, x1
    0x009f013b => Inst::Addw { rd: 2, rs1: 30, rs2: 9 }; // addw x2, x30, x9
    0x410e82bb => Inst::Subw { rd: 5, rs1: 29, rs2: 16 }; // subw x5, x29, x16
    0x017e143b => Inst::Sllw { rd: 8, rs1: 28, rs2: 23 }; // sllw x8, x28, x23
    0x01edd5bb => Inst::Srlw { rd: 11, rs1: 27, rs2: 30 }; // srlw x11, x27, x30
    0x405d573b => Inst::Sraw { rd: 14, rs1: 26, rs2: 5 }; // sraw x14, x26, x5
    0x02cc88bb => Inst::Mulw { rd: 17, rs1: 25, rs2: 12 }; // mulw x17, x25, x12
    0x033c4a3b => Inst::Divw { rd: 20, rs1: 24, rs2: 19 }; // divw x20, x24, x19
    0x03abdbbb => Inst::Divuw { rd: 23, rs1: 23, rs2: 26 }; // divuw x23, x23, x26
    0x021b6d3b => Inst::Remw { rd: 26, rs1: 22, rs2: 1 }; // remw x26, x22, x1
    0x028afebb => Inst::Remuw { rd: 29, rs1: 21, rs2: 8 }; // remuw x29, x21, x8
    0x00000033 => Inst::Add { rd: 0, rs1: 0, rs2: 0 }; // add x0, x0, x0
    0x41ff8fb3 => Inst::Sub { rd: 31, rs1: 31, rs2: 31 }; // sub x31, x31, x31
};

const ATOMICS: [(u32, Inst); 36] = rows! {
    0x1005a52f => Inst::LrW { rd: 10, rs1: 11 }; // lr.w x10, (x11)
    0x1820afaf => Inst::ScW { rd: 31, rs1: 1, rs2: 2 }; // sc.w x31, x2, (x1)
    0x084fa0af => Inst::AmoSwapW { rd: 1, rs1: 31, rs2: 4 }; // amoswap.w x1, x4, (x31)
    0x009f222f => Inst::AmoAddW { rd: 4, rs1: 30, rs2: 9 }; // amoadd.w x4, x9, (x30)
    0x20eea3af => Inst::AmoXorW { rd: 7, rs1: 29, rs2: 14 }; // amoxor.w x7, x14, (x29)
    0x613e252f => Inst::AmoAndW { rd: 10, rs1: 28, rs2: 19 }; // amoand.w x10, x19, (x28)
    0x418da6af => Inst::AmoOrW { rd: 13, rs1: 27, rs2: 24 }; // amoor.w x13, x24, (x27)
    0x81dd282f => Inst::AmoMinW { rd: 16, rs1: 26, rs2: 29 }; // amomin.w x16, x29, (x26)
    0xa02ca9af => Inst::AmoMaxW { rd: 19, rs1: 25, rs2: 2 }; // amomax.w x19, x2, (x25)
    0xc07c2b2f => Inst::AmoMinuW { rd: 22, rs1: 24, rs2: 7 }; // amominu.w x22, x7, (x24)
    0xe0cbacaf => Inst::AmoMaxuW { rd: 25, rs1: 23, rs2: 12 }; // amomaxu.w x25, x12, (x23)
    0x140322af => Inst::LrW { rd: 5, rs1: 6 }; // lr.w.aq x5, (x6)
    0x160fa02f => Inst::LrW { rd: 0, rs1: 31 }; // lr.w.aqrl x0, (x31)
    0x1a9423af => Inst::ScW { rd: 7, rs1: 8, rs2: 9 }; // sc.w.rl x7, x9, (x8)
    0x1ff020af => Inst::ScW { rd: 1, rs1: 0, rs2: 31 }; // sc.w.aqrl x1, x31, (x0)
    0x04e6a62f => Inst::AmoAddW { rd: 12, rs1: 13, rs2: 14 }; // amoadd.w.aq x12, x14, (x13)
    0x0b1827af => Inst::AmoSwapW { rd: 15, rs1: 16, rs2: 17 }; // amoswap.w.rl x15, x17, (x16)
    0xe749a92f => Inst::AmoMaxuW { rd: 18, rs1: 19, rs2: 20 }; // amomaxu.w.aqrl x18, x20, (x19)
    0x1005b52f => Inst::LrD { rd: 10, rs1: 11 }; // lr.d x10, (x11)
    0x1820bfaf => Inst::ScD { rd: 31, rs1: 1, rs2: 2 }; // sc.d x31, x2, (x1)
    0x084fb0af => Inst::AmoSwapD { rd: 1, rs1: 31, rs2: 4 }; // amoswap.d x1, x4, (x31)
    0x009f322f => Inst::AmoAddD { rd: 4, rs1: 30, rs2: 9 }; // amoadd.d x4, x9, (x30)
    0x20eeb3af => Inst::AmoXorD { rd: 7, rs1: 29, rs2: 14 }; // amoxor.d x7, x14, (x29)
    0x613e352f => Inst::AmoAndD { rd: 10, rs1: 28, rs2: 19 }; // amoand.d x10, x19, (x28)
    0x418db6af => Inst::AmoOrD { rd: 13, rs1: 27, rs2: 24 }; // amoor.d x13, x24, (x27)
    0x81dd382f => Inst::AmoMinD { rd: 16, rs1: 26, rs2: 29 }; // amomin.d x16, x29, (x26)
    0xa02cb9af => Inst::AmoMaxD { rd: 19, rs1: 25, rs2: 2 }; // amomax.d x19, x2, (x25)
    0xc07c3b2f => Inst::AmoMinuD { rd: 22, rs1: 24, rs2: 7 }; // amominu.d x22, x7, (x24)
    0xe0cbbcaf => Inst::AmoMaxuD { rd: 25, rs1: 23, rs2: 12 }; // amomaxu.d x25, x12, (x23)
    0x140332af => Inst::LrD { rd: 5, rs1: 6 }; // lr.d.aq x5, (x6)
    0x160fb02f => Inst::LrD { rd: 0, rs1: 31 }; // lr.d.aqrl x0, (x31)
    0x1a9433af => Inst::ScD { rd: 7, rs1: 8, rs2: 9 }; // sc.d.rl x7, x9, (x8)
    0x1ff030af => Inst::ScD { rd: 1, rs1: 0, rs2: 31 }; // sc.d.aqrl x1, x31, (x0)
    0x04e6b62f => Inst::AmoAddD { rd: 12, rs1: 13, rs2: 14 }; // amoadd.d.aq x12, x14, (x13)
    0x0b1837af => Inst::AmoSwapD { rd: 15, rs1: 16, rs2: 17 }; // amoswap.d.rl x15, x17, (x16)
    0xe749b92f => Inst::AmoMaxuD { rd: 18, rs1: 19, rs2: 20 }; // amomaxu.d.aqrl x18, x20, (x19)
};

const ORDER: [(u32, Inst); 11] = rows! {
    0x0330000f => Inst::Fence { fm: 0, pred: 3, succ: 3 }; // fence rw, rw
    0x0ff0000f => Inst::Fence { fm: 0, pred: 15, succ: 15 }; // fence iorw, iorw
    0x0120000f => Inst::Fence { fm: 0, pred: 1, succ: 2 }; // fence w, r
    0x0840000f => Inst::Fence { fm: 0, pred: 8, succ: 4 }; // fence i, o
    0x8330000f => Inst::Fence { fm: 8, pred: 3, succ: 3 }; // fence.tso
    0x0f58818f => Inst::Fence { fm: 0, pred: 15, succ: 5 }; // .insn i 0x0f, 0, x3, x17, 0x0f5
    0xfff0000f => Inst::Fence { fm: 15, pred: 15, succ: 15 }; // .insn i 0x0f, 0, x0, x0, -1
    0x0000100f => Inst::FenceI; // fence.i
    0xffd1108f => Inst::FenceI; // .insn i 0x0f, 1, x1, x2, -3
    0x00000073 => Inst::Ecall; // ecall
    0x00100073 => Inst::Ebreak; // ebreak
};

/// Words of other extensions, of the privileged architecture, reserved ones and compressed ones.
const NO_ROW: [u32; 55] = [
    0x00129073, // csrrw x0, 0x001, x5
    0xf14022f3, // csrrs x5, mhartid, x0
    0x300ffff3, // csrrci x31, 0x300, 31
    0xf1401073, // .4byte 0xf1401073
    0x10500073, // wfi
    0x30200073, // mret
    0x10200073, // sret
    0x12208073, // sfence.vma x1, x2
    0x003170d3, // fadd.s f1, f2, f3
    0x00012087, // flw f1, 0(x2)
    0x00323427, // fsd f3, 8(x4)
    0x223170c3, // fmadd.d f1,f2,f3,f4
    0x203120b3, // sh1add x1, x2, x3
    0x083100bb, // add.uw x1, x2, x3
    0x403170b3, // andn x1, x2, x3
    0x60629233, // rol x4, x5, x6
    0x6072d213, // rori x4, x5, 7
    0x60011093, // clz x1, x2
    0x6001109b, // clzw x1, x2
    0x0a3160b3, // max x1, x2, x3
    0x60411093, // sext.b x1, x2
    0x6b815093, // rev8 x1, x2
    0x0a11109b, // slli.uw x1, x2, 33
    0x285211b3, // bset x3, x4, x5
    0x2bf21193, // bseti x3, x4, 63
    0x0a7312b3, // clmul x5, x6, x7
    0x103120af, // .insn r 0x2f, 2, 0x08, x1, x2, x3
    0x17f130af, // .insn r 0x2f, 3, 0x0b, x1, x2, x31
    0x003100af, // .insn r 0x2f, 0, 0, x1, x2, x3
    0x083140af, // .insn r 0x2f, 4, 4, x1, x2, x3
    0x283120af, // .insn r 0x2f, 2, 0x14, x1, x2, x3
    0x000110e7, // .insn i 0x67, 1, x1, x2, 0
    0x00017083, // .insn i 0x03, 7, x1, x2, 0
    0x00114223, // .insn s 0x23, 4, x1, 4(x2)
    0x0000200f, // .insn i 0x0f, 2, x0, x0, 0
    0x003120e3, // .insn r 0x63, 2, 0, x1, x2, x3
    0x003130e3, // .insn r 0x63, 3, 0, x1, x2, x3
    0x04311093, // .insn r 0x13, 1, 0x02, x1, x2, x3
    0x44315093, // .insn r 0x13, 5, 0x22, x1, x2, x3
    0x80315093, // .insn r 0x13, 5, 0x40, x1, x2, x3
    0x0231109b, // .insn r 0x1b, 1, 0x01, x1, x2, x3
    0x4231509b, // .insn r 0x1b, 5, 0x21, x1, x2, x3
    0x0031209b, // .insn r 0x1b, 2, 0, x1, x2, x3
    0x403110b3, // .insn r 0x33, 1, 0x20, x1, x2, x3
    0x803100b3, // .insn r 0x33, 0, 0x40, x1, x2, x3
    0x023110bb, // .insn r 0x3b, 1, 1, x1, x2, x3
    0x003120bb, // .insn r 0x3b, 2, 0, x1, x2, x3
    0x403140bb, // .insn r 0x3b, 4, 0x20, x1, x2, x3
    0x000000f3, // .insn i 0x73, 0, x1, x0, 0
    0x00108073, // .insn i 0x73, 0, x0, x1, 1
    0x00200073, // .insn i 0x73, 0, x0, x0, 2
    0x00004073, // .insn i 0x73, 4, x0, x0, 0
    0x00000000, // .4byte 0
    0xffffffff, // .4byte 0xffffffff
    0x00010001, // .4byte 0x00010001
];

/// Each word must decode to its instruction. Two instructions that have the same word are the same.
fn expect_each(rt: &impl Abort, rows: &[(u32, Inst)]) {
    for (word, inst) in rows {
        let wanted = encode(inst);
        assert!(rt; wanted.is_some(), "at {word:x}");
        match decode(*word) {
            Some(decoded) => assert!(rt; encode(&decoded) == wanted, "at {word:x}"),
            None => assert!(rt; false, "at {word:x}"),
        }
    }
}

#[test]
fn decodes_words(rt: HostRuntime) {
    expect_each(&rt, &UPPER);
    expect_each(&rt, &JUMPS);
    expect_each(&rt, &BRANCHES);
    expect_each(&rt, &LOADS);
    expect_each(&rt, &STORES);
    expect_each(&rt, &IMMEDIATES);
    expect_each(&rt, &SHIFTS);
    expect_each(&rt, &REGISTERS);
    expect_each(&rt, &ATOMICS);
    expect_each(&rt, &ORDER);
}

#[test]
fn refuses_other_words(rt: HostRuntime) {
    for word in &NO_ROW {
        assert!(rt; decode(*word).is_none(), "at {word:x}");
    }
}
