//! The instructions, under the names of the RISC-V manual.

ghost use Rattle.std.specs.Prelude.{◌≡◌};
ghost use Rattle.rv_inst.specs.Local.{is_register_only};

/// An instruction with its registers and its immediate, one variant for each row of the table
/// (RISC-V Unprivileged ISA, chapter "RV32/64G Instruction Set Listings").
///
/// `rd`, `rs1` and `rs2` are numbers of registers, below 32. `imm` is the immediate as the signed number that
/// it stands for: of LUI and AUIPC with its twelve low zeros, of jumps and branches as the distance from the
/// pc in bytes. `shamt` is a distance of a shift in bits. The bits aq and rl of the A instructions are not
/// kept, since each such instruction is ordered on both sides here.
#[derive(Clone, Copy, Drop)]
pub enum Inst {
    // RV64I: upper immediates, jumps and branches.
    /// Loads the upper immediate.
    Lui { rd: u8, imm: i64 },
    /// Adds the upper immediate to the pc.
    Auipc { rd: u8, imm: i64 },
    /// Jumps and links.
    Jal { rd: u8, imm: i64 },
    /// Jumps to a register plus the immediate, with bit 0 cleared, and links.
    Jalr { rd: u8, rs1: u8, imm: i64 },
    /// Branches if equal.
    Beq { rs1: u8, rs2: u8, imm: i64 },
    /// Branches if not equal.
    Bne { rs1: u8, rs2: u8, imm: i64 },
    /// Branches if less, signed.
    Blt { rs1: u8, rs2: u8, imm: i64 },
    /// Branches if greater or equal, signed.
    Bge { rs1: u8, rs2: u8, imm: i64 },
    /// Branches if less, unsigned.
    Bltu { rs1: u8, rs2: u8, imm: i64 },
    /// Branches if greater or equal, unsigned.
    Bgeu { rs1: u8, rs2: u8, imm: i64 },
    // RV64I: loads and stores.
    /// Loads a byte, sign-extended.
    Lb { rd: u8, rs1: u8, imm: i64 },
    /// Loads 2 bytes, sign-extended.
    Lh { rd: u8, rs1: u8, imm: i64 },
    /// Loads 4 bytes, sign-extended.
    Lw { rd: u8, rs1: u8, imm: i64 },
    /// Loads 8 bytes.
    Ld { rd: u8, rs1: u8, imm: i64 },
    /// Loads a byte, zero-extended.
    Lbu { rd: u8, rs1: u8, imm: i64 },
    /// Loads 2 bytes, zero-extended.
    Lhu { rd: u8, rs1: u8, imm: i64 },
    /// Loads 4 bytes, zero-extended.
    Lwu { rd: u8, rs1: u8, imm: i64 },
    /// Stores a byte.
    Sb { rs1: u8, rs2: u8, imm: i64 },
    /// Stores 2 bytes.
    Sh { rs1: u8, rs2: u8, imm: i64 },
    /// Stores 4 bytes.
    Sw { rs1: u8, rs2: u8, imm: i64 },
    /// Stores 8 bytes.
    Sd { rs1: u8, rs2: u8, imm: i64 },
    // RV64I: integer computation with an immediate.
    /// Adds the immediate.
    Addi { rd: u8, rs1: u8, imm: i64 },
    /// 1 if less than the immediate, signed, else 0.
    Slti { rd: u8, rs1: u8, imm: i64 },
    /// 1 if less than the sign-extended immediate, unsigned, else 0.
    Sltiu { rd: u8, rs1: u8, imm: i64 },
    /// Exclusive or with the immediate.
    Xori { rd: u8, rs1: u8, imm: i64 },
    /// Or with the immediate.
    Ori { rd: u8, rs1: u8, imm: i64 },
    /// And with the immediate.
    Andi { rd: u8, rs1: u8, imm: i64 },
    /// Shifts left.
    Slli { rd: u8, rs1: u8, shamt: u8 },
    /// Shifts right, zeros come in.
    Srli { rd: u8, rs1: u8, shamt: u8 },
    /// Shifts right, the sign comes in.
    Srai { rd: u8, rs1: u8, shamt: u8 },
    /// ADDI on the low 32 bits.
    Addiw { rd: u8, rs1: u8, imm: i64 },
    /// SLLI on the low 32 bits.
    Slliw { rd: u8, rs1: u8, shamt: u8 },
    /// SRLI on the low 32 bits.
    Srliw { rd: u8, rs1: u8, shamt: u8 },
    /// SRAI on the low 32 bits.
    Sraiw { rd: u8, rs1: u8, shamt: u8 },
    // RV64I: integer computation with registers.
    /// Adds.
    Add { rd: u8, rs1: u8, rs2: u8 },
    /// Subtracts.
    Sub { rd: u8, rs1: u8, rs2: u8 },
    /// Shifts left by the low 6 bits of `rs2`.
    Sll { rd: u8, rs1: u8, rs2: u8 },
    /// 1 if less, signed, else 0.
    Slt { rd: u8, rs1: u8, rs2: u8 },
    /// 1 if less, unsigned, else 0.
    Sltu { rd: u8, rs1: u8, rs2: u8 },
    /// Exclusive or.
    Xor { rd: u8, rs1: u8, rs2: u8 },
    /// Shifts right by the low 6 bits of `rs2`, zeros come in.
    Srl { rd: u8, rs1: u8, rs2: u8 },
    /// Shifts right by the low 6 bits of `rs2`, the sign comes in.
    Sra { rd: u8, rs1: u8, rs2: u8 },
    /// Or.
    Or { rd: u8, rs1: u8, rs2: u8 },
    /// And.
    And { rd: u8, rs1: u8, rs2: u8 },
    // M: multiplication and division.
    /// The low 64 bits of the product.
    Mul { rd: u8, rs1: u8, rs2: u8 },
    /// The high 64 bits of the signed product.
    Mulh { rd: u8, rs1: u8, rs2: u8 },
    /// The high 64 bits of the product of signed `rs1` and unsigned `rs2`.
    Mulhsu { rd: u8, rs1: u8, rs2: u8 },
    /// The high 64 bits of the unsigned product.
    Mulhu { rd: u8, rs1: u8, rs2: u8 },
    /// The signed quotient.
    Div { rd: u8, rs1: u8, rs2: u8 },
    /// The unsigned quotient.
    Divu { rd: u8, rs1: u8, rs2: u8 },
    /// The signed remainder.
    Rem { rd: u8, rs1: u8, rs2: u8 },
    /// The unsigned remainder.
    Remu { rd: u8, rs1: u8, rs2: u8 },
    // RV64I and M on words.
    /// ADD on the low 32 bits.
    Addw { rd: u8, rs1: u8, rs2: u8 },
    /// SUB on the low 32 bits.
    Subw { rd: u8, rs1: u8, rs2: u8 },
    /// SLL on the low 32 bits, by the low 5 bits of `rs2`.
    Sllw { rd: u8, rs1: u8, rs2: u8 },
    /// SRL on the low 32 bits, by the low 5 bits of `rs2`.
    Srlw { rd: u8, rs1: u8, rs2: u8 },
    /// SRA on the low 32 bits, by the low 5 bits of `rs2`.
    Sraw { rd: u8, rs1: u8, rs2: u8 },
    /// MUL on the low 32 bits.
    Mulw { rd: u8, rs1: u8, rs2: u8 },
    /// DIV on the low 32 bits.
    Divw { rd: u8, rs1: u8, rs2: u8 },
    /// DIVU on the low 32 bits.
    Divuw { rd: u8, rs1: u8, rs2: u8 },
    /// REM on the low 32 bits.
    Remw { rd: u8, rs1: u8, rs2: u8 },
    /// REMU on the low 32 bits.
    Remuw { rd: u8, rs1: u8, rs2: u8 },
    // RV64I and Zifencei: order.
    /// Orders the accesses before it that are in `pred` before those after it that are in `succ`.
    Fence { fm: u8, pred: u8, succ: u8 },
    /// FENCE.I: later instructions are fetched as the stores before it left them.
    FenceI,
    // A on words.
    /// LR.W: loads and reserves.
    LrW { rd: u8, rs1: u8 },
    /// SC.W: stores where the reservation holds; `rd` becomes 0, else 1.
    ScW { rd: u8, rs1: u8, rs2: u8 },
    /// AMOSWAP.W: swaps.
    AmoSwapW { rd: u8, rs1: u8, rs2: u8 },
    /// AMOADD.W: adds.
    AmoAddW { rd: u8, rs1: u8, rs2: u8 },
    /// AMOXOR.W: exclusive or.
    AmoXorW { rd: u8, rs1: u8, rs2: u8 },
    /// AMOAND.W: and.
    AmoAndW { rd: u8, rs1: u8, rs2: u8 },
    /// AMOOR.W: or.
    AmoOrW { rd: u8, rs1: u8, rs2: u8 },
    /// AMOMIN.W: the lesser, signed.
    AmoMinW { rd: u8, rs1: u8, rs2: u8 },
    /// AMOMAX.W: the greater, signed.
    AmoMaxW { rd: u8, rs1: u8, rs2: u8 },
    /// AMOMINU.W: the lesser, unsigned.
    AmoMinuW { rd: u8, rs1: u8, rs2: u8 },
    /// AMOMAXU.W: the greater, unsigned.
    AmoMaxuW { rd: u8, rs1: u8, rs2: u8 },
    // A on doublewords.
    /// LR.D: loads and reserves.
    LrD { rd: u8, rs1: u8 },
    /// SC.D: stores where the reservation holds; `rd` becomes 0, else 1.
    ScD { rd: u8, rs1: u8, rs2: u8 },
    /// AMOSWAP.D: swaps.
    AmoSwapD { rd: u8, rs1: u8, rs2: u8 },
    /// AMOADD.D: adds.
    AmoAddD { rd: u8, rs1: u8, rs2: u8 },
    /// AMOXOR.D: exclusive or.
    AmoXorD { rd: u8, rs1: u8, rs2: u8 },
    /// AMOAND.D: and.
    AmoAndD { rd: u8, rs1: u8, rs2: u8 },
    /// AMOOR.D: or.
    AmoOrD { rd: u8, rs1: u8, rs2: u8 },
    /// AMOMIN.D: the lesser, signed.
    AmoMinD { rd: u8, rs1: u8, rs2: u8 },
    /// AMOMAX.D: the greater, signed.
    AmoMaxD { rd: u8, rs1: u8, rs2: u8 },
    /// AMOMINU.D: the lesser, unsigned.
    AmoMinuD { rd: u8, rs1: u8, rs2: u8 },
    /// AMOMAXU.D: the greater, unsigned.
    AmoMaxuD { rd: u8, rs1: u8, rs2: u8 },
    // RV64I: environment.
    /// Calls the kernel.
    Ecall,
    /// Stops at a breakpoint.
    Ebreak,
}

/// Whether an instruction reads and writes registers and the pc alone, no memory.
///
/// True for all but loads, stores, fences, the A instructions, ECALL and EBREAK (own).
#[tactic(auto, unfolding(crate::specs::Local::is_register_only))]
pub fn is_local(inst: &Inst) -> bool
    ensures { result ≡ is_register_only inst.now }
{
    match inst {
        Inst::Lb { .. }
        | Inst::Lh { .. }
        | Inst::Lw { .. }
        | Inst::Ld { .. }
        | Inst::Lbu { .. }
        | Inst::Lhu { .. }
        | Inst::Lwu { .. }
        | Inst::Sb { .. }
        | Inst::Sh { .. }
        | Inst::Sw { .. }
        | Inst::Sd { .. }
        | Inst::Fence { .. }
        | Inst::FenceI
        | Inst::LrW { .. }
        | Inst::ScW { .. }
        | Inst::AmoSwapW { .. }
        | Inst::AmoAddW { .. }
        | Inst::AmoXorW { .. }
        | Inst::AmoAndW { .. }
        | Inst::AmoOrW { .. }
        | Inst::AmoMinW { .. }
        | Inst::AmoMaxW { .. }
        | Inst::AmoMinuW { .. }
        | Inst::AmoMaxuW { .. }
        | Inst::LrD { .. }
        | Inst::ScD { .. }
        | Inst::AmoSwapD { .. }
        | Inst::AmoAddD { .. }
        | Inst::AmoXorD { .. }
        | Inst::AmoAndD { .. }
        | Inst::AmoOrD { .. }
        | Inst::AmoMinD { .. }
        | Inst::AmoMaxD { .. }
        | Inst::AmoMinuD { .. }
        | Inst::AmoMaxuD { .. }
        | Inst::Ecall
        | Inst::Ebreak => false,
        _ => true,
    }
}
