//! Code, line by line.

ghost use Rattle.std.specs.Prelude.{◌≡◌, ℕ, [], ◌∷◌, OnOk, OnErr, All, length, take};
ghost use Rattle.percpu_lib.specs.Lines.{AreEmitted, IsEmittable, IsEmitted};

use rv_asm::{Asm, encode};
use rv_inst::Inst;
use std::alloc::AllocError;

/// A line of code.
#[derive(Clone, Copy, Drop)]
pub enum Line {
    /// The label stands here.
    Label(u32),
    /// An instruction.
    Plain(Inst),
    /// A jump or a branch to the label.
    Branch(Inst, u32),
    /// A word that is no instruction.
    Data(u32),
}

/// A line with an instruction, as `inst!(Ld rd = 6, rs1 = 5, imm = 0)`.
#[macro_export]
macro_rules! inst {
    ($name:ident $($field:ident = $value:expr),*) => {
        $crate::Line::Plain(Inst::$name { $($field: $value),* })
    };
}

/// A branch to a label, as `branch!(Beq rs1 = 5, rs2 = 6 => HERE)`.
#[macro_export]
macro_rules! branch {
    ($name:ident $($field:ident = $value:expr),* => $label:expr) => {
        $crate::Line::Branch(Inst::$name { $($field: $value,)* imm: 0 }, $label)
    };
}

/// Appends a line; a label that isn't free is left as it is. Where memory is short nothing changes.
fn emit_line(asm: &mut Asm, line: &Line) -> Result<(), AllocError>
    requires { IsEmittable (length asm.now.labels) line.now }
    ensures ok { OnOk result (IsEmitted (line.now ∷ []) asm.old asm.new) }
    ensures err { OnErr result (asm.new ≡ asm.old) }
{
    match *line {
        Line::Label(n) => {
            asm.label(n);
            Ok(())
        }
        Line::Plain(inst) => match encode(&inst) {
            Some(word) => asm.push(word),
            None => Ok(()),
        },
        Line::Branch(inst, n) => match asm.branch(inst, n) {
            Ok(()) => Ok(()),
            Err(_) => Err(AllocError),
        },
        Line::Data(word) => asm.push(word),
    }
}

/// Appends lines. Where memory is short, those before some line were appended.
pub fn emit_lines(asm: &mut Asm, lines: &[Line]) -> Result<(), AllocError>
    requires { All (IsEmittable (length asm.now.labels)) lines.now }
    ensures ok { OnOk result (AreEmitted lines.now asm.old asm.new) }
    ensures err { OnErr result ((n : ℕ) × AreEmitted (take n lines.now) asm.old asm.new) }
{
    for line in lines {
        emit_line(asm, line)?;
    }
    Ok(())
}
