//! How the lines of a block are written: what all blocks begin and end with, once.

ghost use Rattle.std.specs.Prelude.{◌≡◌, ◌+◌, ◌<◌, ◌^◌, IfOk};
ghost use Rattle.percpu_lib.specs.BlockLines.{block_lines, start_lines};

use crate::lines::Line;
use crate::room::{lower_part, upper_part};
use crate::slots::Slots;
use crate::{branch, inst};
use rv_inst::Inst;
use std::alloc::{AllocError, Global};

/// What stands before a start, and the start: up to where the address of the processor's data is in x5.
fn start_of_block(base: u32, slots: Slots, shift: u8) -> [Line; 9]
    requires low { slots.table < 0x7FFFF800 }
    requires fits { base + 8 < 2 ^ 32 }
    ensures { result ≡ start_lines slots base shift }
{
    [
        inst!(Lw rd = 5, rs1 = slots.area, imm = 0),
        inst!(Lui rd = 6, imm = upper_part(slots.table)),
        inst!(Addi rd = 6, rs1 = 6, imm = lower_part(slots.table)),
        inst!(Sd rs1 = slots.area, rs2 = 6, imm = 8),
        Line::Label(base + 1),
        inst!(Lw rd = 6, rs1 = slots.area, imm = 4),
        branch!(Bne rs1 = 6, rs2 = 5 => base),
        inst!(Slli rd = 5, rs1 = 5, shamt = shift),
        inst!(Add rd = 5, rs1 = 5, rs2 = slots.cells),
    ]
}

/// The lines of a block: what it does first at its retry label, the distance of the shift that makes an offset of
/// the processor's number, what it does inside, and what it does where it was aborted before it begins anew.
pub(crate) fn lines_of_block(
    alloc: Global,
    base: u32,
    slots: Slots,
    shift: u8,
    first: &[Line],
    inside: &[Line],
    aborted: &[Line],
) -> Result<Vec<Line>, AllocError>
    requires low { slots.table < 0x7FFFF800 }
    requires fits { base + 8 < 2 ^ 32 }
    ensures { IfOk result (λ lines. lines.items
        ≡ block_lines slots base shift first.now inside.now aborted.now) }
{
    let start = start_of_block(base, slots, shift);
    let mut lines = Vec::from_slice(alloc, &[Line::Label(base)])?;
    lines.extend_from_slice(first)?;
    lines.extend_from_slice(&start)?;
    lines.extend_from_slice(inside)?;
    lines.extend_from_slice(&[
        Line::Label(base + 2),
        branch!(Jal rd = 0 => base + 4),
        Line::Data(0xF140_1073),
        Line::Label(base + 3),
    ])?;
    lines.extend_from_slice(aborted)?;
    lines.extend_from_slice(&[branch!(Jal rd = 0 => base), Line::Label(base + 4)])?;
    Ok(lines)
}
