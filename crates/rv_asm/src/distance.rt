//! Branches, and how far they reach.

ghost use Rattle.std.specs.Prelude.{◌≡◌, ◌^◌, ◌≤◌};
ghost use Rattle.rv_asm.specs.Assembly.{aimed, distance, fits_distance};

use crate::fields::has_signed_bits;
use rv_inst::Inst;

/// A jump or a branch with another distance; any other instruction as it is.
pub fn aim(inst: Inst, distance: i64) -> Inst
    ensures { result ≡ aimed inst distance }
{
    let imm = distance;
    match inst {
        Inst::Jal { rd, .. } => Inst::Jal { rd, imm },
        Inst::Beq { rs1, rs2, .. } => Inst::Beq { rs1, rs2, imm },
        Inst::Bne { rs1, rs2, .. } => Inst::Bne { rs1, rs2, imm },
        Inst::Blt { rs1, rs2, .. } => Inst::Blt { rs1, rs2, imm },
        Inst::Bge { rs1, rs2, .. } => Inst::Bge { rs1, rs2, imm },
        Inst::Bltu { rs1, rs2, .. } => Inst::Bltu { rs1, rs2, imm },
        Inst::Bgeu { rs1, rs2, .. } => Inst::Bgeu { rs1, rs2, imm },
        other => other,
    }
}

/// The distance in bytes from the word at one index to that at another.
pub fn distance_to(from: usize, to: usize) -> i64
    requires from_within { from ≤ 2 ^ 60 }
    requires to_within { to ≤ 2 ^ 60 }
    ensures { result ≡ distance from to }
{
    4 * to as i64 - 4 * from as i64
}

/// Whether an instruction that has a distance reaches so far.
pub fn reaches(inst: Inst, distance: i64) -> bool
    ensures { result ≡ fits_distance inst distance }
{
    match inst {
        Inst::Jal { .. } => has_signed_bits(21, distance),
        _ => has_signed_bits(13, distance),
    }
}
