//! What a call asks, and what it answers: the number is in a7, arguments are in a0 to a5, and the answer is in a0 (Linux
//! for RISC-V, syscall(2)).

ghost use Rattle.std.specs.Prelude.{◌≡◌, ◌≤◌, ◌<◌, ◌+◌, ◌%◌, ◌^◌, ℕ, false, None, IfErr};
ghost use Rattle.mach_types.specs.Kernel.Threads.{Threads, runs};
ghost use Rattle.mach_types.specs.Registers.{register};
ghost use Rattle.mach_types.specs.declared.signals.TheConstants.{LAST_SIGNAL};
ghost use Rattle.rv_inst.specs.Words.{signed_32, sum_64};
ghost use Rattle.block_model.specs.Calls.Answers.{negative, returned};
ghost use Rattle.sys_calls.specs.Answered.{answer_of};
ghost use Rattle.sys_calls.specs.Made.{IsAnswer, StandsSo, barrier_of, gives_up, process_end};

use crate::calling::CallEnd;
use mach_types::{Errno, Saved};

/// The register of the first argument, and of the answer: a0.
pub(crate) const A0: u8 = 10;

/// The register of a call's number: a7.
pub(crate) const A7: u8 = 17;

/// The number of the call.
pub fn call_number(saved: &Saved) -> u64
    ensures { result ≡ register saved.now.file 17 }
{
    saved.file.get(A7)
}

/// An argument, 0 to 5.
pub fn argument(saved: &Saved, index: u8) -> u64
    requires { index ≤ 5 }
    ensures { result ≡ register saved.now.file (10 + index) }
{
    saved.file.get(A0 + index)
}

/// The low 32 bits of a register.
pub(crate) fn low_half(value: u64) -> u32
    ensures { result ≡ value % 2 ^ 32 }
{
    (value % 0x1_0000_0000) as u32
}

/// An argument that Linux declares as an `int`: the low 32 bits of its register.
pub fn int_argument(saved: &Saved, index: u8) -> u32
    requires { index ≤ 5 }
    ensures { result ≡ register saved.now.file (10 + index) % 2 ^ 32 }
{
    low_half(argument(saved, index))
}

/// The same, as a number that may be negative.
pub fn signed_argument(saved: &Saved, index: u8) -> i32
    requires { index ≤ 5 }
    ensures { result ≡ signed_32 (register saved.now.file (10 + index)) }
{
    int_argument(saved, index).cast_signed()
}

/// The number of a signal, at most 31, that was given as an `int`.
pub fn signal_number(number: u32) -> u8
    requires { number ≤ LAST_SIGNAL }
    ensures { result ≡ number }
{
    number as u8
}

/// Goes on past the call.
pub fn skip(saved: &mut Saved)
    ensures { saved.new ≡ record saved.old { pc = sum_64 saved.old.pc 4 } }
{
    saved.pc = saved.pc.wrapping_add(4);
}

/// Puts an answer into a0, and goes on past the call.
pub fn answer(saved: &mut Saved, value: u64)
    ensures saved { saved.new ≡ returned value saved.old }
    ensures a0 { register saved.new.file 10 ≡ value }
{
    saved.file.x[A0 as usize] = value;
    saved.pc = saved.pc.wrapping_add(4);
}

/// The answer of a refused call.
fn refusal(errno: Errno) -> u64
    requires { 1 ≤ errno.0 }
    ensures { result ≡ negative errno.0 }
{
    u64::MAX - (u64::from(errno.0) - 1)
}

/// What a0 gets: the number, or the negative of the error number.
fn value_of(answer: Result<u64, Errno>) -> u64
    requires { IfErr answer (λ e. 1 ≤ e.0) }
    ensures { result ≡ answer_of answer }
{
    match answer {
        Ok(number) => number,
        Err(errno) => refusal(errno),
    }
}

/// An answer of 32 bits as the register takes it.
pub fn widened(answer: Result<u32, Errno>) -> Result<u64, Errno>
    ensures { result ≡ answer }
{
    Ok(u64::from(answer?))
}

/// The thread goes on with this answer, or is refused.
pub fn go_on(saved: &mut Saved, outcome: Result<u64, Errno>) -> CallEnd
    requires { IfErr outcome (λ e. 1 ≤ e.0) }
    ensures saved { saved.new ≡ returned (answer_of outcome) saved.old }
    ensures answer { IsAnswer result saved.new }
    ensures stays { gives_up result ≡ false }
    ensures runs_on { (t : ℕ) (threads : Threads) → runs threads t → StandsSo result t threads }
    ensures waits_in_none { barrier_of result ≡ None }
    ensures ends { process_end result ≡ None }
{
    let value = value_of(outcome);
    answer(saved, value);
    CallEnd::Return(value.cast_signed())
}
