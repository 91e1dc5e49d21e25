//! Where a hart goes on: the next instruction, jumps, branches, and which fences wait.

ghost use Rattle.std.specs.Prelude.{◌≡◌};
ghost use Rattle.rv_inst.specs.Meaning as meaning;
ghost use Rattle.rv_inst.specs.Order.{is_full_fence};
ghost use Rattle.rv_inst.specs.Words as words;
ghost use Rattle.rv_inst.specs.Words.{sum_64};

use crate::words::word;
use rv_inst::Effect;

/// A value goes into `rd`, and the hart goes on at the next instruction.
pub fn next(rd: u8, value: u64, pc: u64) -> Effect
    ensures { result ≡ meaning.next rd value pc }
{
    Effect::Next {
        rd,
        value,
        pc: pc.wrapping_add(4),
    }
}

/// A value goes into `rd`, and the hart goes on at a target, if that is a multiple of 4.
fn go_to(rd: u8, value: u64, target: u64) -> Effect
    ensures { result ≡ meaning.go_to rd value target }
{
    if target % 4 == 0 {
        Effect::Next {
            rd,
            value,
            pc: target,
        }
    } else {
        Effect::Misaligned
    }
}

/// A jump, with the address of the next instruction in `rd`.
pub fn jump(rd: u8, target: u64, pc: u64) -> Effect
    ensures { result ≡ meaning.jump rd target pc }
{
    go_to(rd, pc.wrapping_add(4), target)
}

/// A branch, to the pc plus its immediate or to the next instruction.
pub fn branch(is_taken: bool, imm: i64, pc: u64) -> Effect
    ensures { result ≡ meaning.branch is_taken (sum_64 pc (words.word imm)) pc }
{
    if is_taken {
        go_to(0, 0, pc.wrapping_add(word(imm)))
    } else {
        next(0, 0, pc)
    }
}

/// A fence with its mode and the accesses before it and after it.
pub fn fence(fm: u8, pred: u8, succ: u8) -> Effect
    ensures { result ≡ Effect.Fence (is_full_fence fm pred succ) }
{
    let is_tso = fm == 8 && pred == 3 && succ == 3;
    Effect::Fence {
        full: pred % 2 == 1 && succ / 2 % 2 == 1 && !is_tso,
    }
}
