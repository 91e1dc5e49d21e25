//! A call of a thread of one of two processes. membarrier(2) and rseq(2) are otherwise than where a process is alone.

ghost use Rattle.std.specs.Prelude.{◌≡◌, ◌<◌, ℕ, Some, false, length};
ghost use Rattle.block_model.specs.Here.{runs};
ghost use Rattle.block_model.specs.Stands.{Stand, here_at};
ghost use Rattle.process.specs.Planned.{IsInside};
ghost use Rattle.process.specs.Refinement.{IsPlace};
ghost use Rattle.shared_procs.specs.PairPlaces.{HasStep, IsOutsideCall, IsOwnOrInside, IsSteppedAt, call_next};

use crate::entering::unseen;
use crate::half::{threads_beside, threads_on};
use mach_types::errors::ENOSYS;
use mach_types::{Hart, Saved};
use membarrier_cmds::command_two;
use process::Parts;
use sys_calls::{call_number, end_command, go_on, int_argument, signed_argument};

/// The numbers of the calls that two processes have otherwise (Linux for RISC-V).
const MEMBARRIER: u64 = 283;

const RSEQ: u64 = 293;

/// The registers of the thread on a hart.
fn saved_of(mine: &Parts, hart: Hart) -> Saved
    requires { hart.0 < length mine.now.harts.items }
    ensures { (v : Stand) (t : ℕ) → IsPlace v mine.now hart.0 → runs (here_at v hart.0) ≡ Some t
        → result ≡ (here_at v hart.0).file t }
{
    let state = &mine.harts[hart.0 as usize];
    Saved {
        file: state.file,
        pc: state.pc,
    }
}

/// membarrier(2): its barriers may be about the harts of both processes.
fn call_membarrier(mine: &mut Parts, other: &mut Parts, hart: Hart)
    requires step { HasStep hart.0 call_next mine.old other.old }
    requires number { IsOutsideCall 283 mine.old hart.0 }
    ensures { IsSteppedAt hart.0 call_next mine.old other.old mine.new other.new }
{
    let harts = mine.harts.len() as u8;
    let running = threads_on(mine);
    let beside = threads_beside(other);
    let mut saved = saved_of(mine, hart);
    let cmd = signed_argument(&saved, 0);
    let flags = int_argument(&saved, 1);
    let cpu = signed_argument(&saved, 2);
    let outcome = command_two(
        &mut mine.kernel.registered,
        &other.kernel.registered,
        cmd,
        flags,
        cpu,
        hart,
        running,
        beside,
        harts,
    );
    let end = end_command(&mut saved, outcome);
    mine.finish_call(hart, end, saved, &[]);
    other.pass_by(hart, false, end, &[]);
}

/// rseq(2), which two processes don't have (own).
fn refuse_rseq(mine: &mut Parts, other: &mut Parts, hart: Hart)
    requires step { HasStep hart.0 call_next mine.old other.old }
    requires number { IsOutsideCall 293 mine.old hart.0 }
    ensures { IsSteppedAt hart.0 call_next mine.old other.old mine.new other.new }
{
    let mut saved = saved_of(mine, hart);
    let end = go_on(&mut saved, Err(ENOSYS));
    mine.finish_call(hart, end, saved, &[]);
    unseen(other, hart);
}

/// A call of the process's own, or one inside a sequence, which kills the process. The kernel writes to pages alone.
fn own_call(mine: &mut Parts, other: &mut Parts, hart: Hart)
    requires step { HasStep hart.0 call_next mine.old other.old }
    requires own { IsOwnOrInside mine.old hart.0 }
    ensures { IsSteppedAt hart.0 call_next mine.old other.old mine.new other.new }
{
    mine.pages.keeps();
    mine.call(hart);
    unseen(other, hart);
}

/// A call outside each sequence.
fn outside_call(mine: &mut Parts, other: &mut Parts, hart: Hart)
    requires step { HasStep hart.0 call_next mine.old other.old }
    requires outside { IsInside false mine.old hart.0 }
    ensures { IsSteppedAt hart.0 call_next mine.old other.old mine.new other.new }
{
    let number = call_number(&saved_of(mine, hart));
    if number == MEMBARRIER {
        call_membarrier(mine, other, hart)
    } else if number == RSEQ {
        refuse_rseq(mine, other, hart)
    } else {
        own_call(mine, other, hart)
    }
}

/// A call.
pub fn call(mine: &mut Parts, other: &mut Parts, hart: Hart)
    requires { HasStep hart.0 call_next mine.old other.old }
    ensures { IsSteppedAt hart.0 call_next mine.old other.old mine.new other.new }
{
    if mine.is_inside(hart) {
        own_call(mine, other, hart)
    } else {
        outside_call(mine, other, hart)
    }
}
