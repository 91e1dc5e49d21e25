//! The major opcodes, bits 6..0 of a word (RISC-V Unprivileged ISA, chapter "RV32/64G Instruction Set
//! Listings").

/// Loads.
pub const LOAD: u32 = 0x03;
/// Fences.
pub const MISC_MEM: u32 = 0x0f;
/// Computation with an immediate.
pub const OP_IMM: u32 = 0x13;
/// AUIPC.
pub const AUIPC: u32 = 0x17;
/// Computation with an immediate on the low 32 bits.
pub const OP_IMM_32: u32 = 0x1b;
/// Stores.
pub const STORE: u32 = 0x23;
/// The A instructions.
pub const AMO: u32 = 0x2f;
/// Computation with two registers.
pub const OP: u32 = 0x33;
/// LUI.
pub const LUI: u32 = 0x37;
/// Computation with two registers on the low 32 bits.
pub const OP_32: u32 = 0x3b;
/// Branches.
pub const BRANCH: u32 = 0x63;
/// JALR.
pub const JALR: u32 = 0x67;
/// JAL.
pub const JAL: u32 = 0x6f;
/// ECALL and EBREAK.
pub const SYSTEM: u32 = 0x73;
