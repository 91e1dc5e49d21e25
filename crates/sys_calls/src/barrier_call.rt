//! membarrier(2): a barrier among the harts that run threads of the process.

ghost use Rattle.std.specs.Prelude.{◌≡◌, ℕ, false, None};
ghost use Rattle.mach_types.specs.Kernel.Threads.{Threads, runs};
ghost use Rattle.page_map.specs.Map.{Map};
ghost use Rattle.block_model.specs.Here.{Here};
ghost use Rattle.block_model.specs.History.{file_among};
ghost use Rattle.block_model.specs.Calls.Barriers.{answers, membarrier, running_harts};
ghost use Rattle.sys_calls.specs.Answered.{IsCaller};
ghost use Rattle.sys_calls.specs.Tables.{HoldsTables};
ghost use Rattle.sys_calls.specs.Made.{HasPages, IsAnswer, IsMade, StandsSo, barrier_of, gives_up, process_end};

use crate::arguments::{answer, int_argument, signed_argument, skip};
use crate::calling::{CallEnd, Caller};
use crate::kernel::Kernel;
use mach_types::{Answer, Saved};
use membarrier_cmds::command;

/// A thread whose command of membarrier(2) came to this: it goes on with a value, or it waits in a barrier, with the pc past the call and
/// a0 as it is.
pub fn end_command(saved: &mut Saved, outcome: Answer) -> CallEnd
    ensures saved { (h : Here) (t : ℕ) → saved.old ≡ h.file t
        → saved.new ≡ file_among (answers h t outcome).files t (h.file t) }
    ensures barrier { (h : Here) (t : ℕ) → barrier_of result ≡ (answers h t outcome).barrier }
    ensures answer { IsAnswer result saved.new }
    ensures stays { gives_up result ≡ false }
    ensures runs_on { (t : ℕ) (threads : Threads) → runs threads t → StandsSo result t threads }
    ensures ends { process_end result ≡ None }
{
    match outcome {
        Answer::Value(value) => {
            answer(saved, value.cast_unsigned());
            CallEnd::Return(value)
        }
        Answer::Begin { targets, restart } => {
            skip(saved);
            CallEnd::Barrier { targets, restart }
        }
    }
}

/// membarrier(cmd, flags, cpu): a command, as [`command`] answers it. A barrier begins where other harts have to take part in it: its
/// thread waits on its hart until it returns. The arguments are the low 32 bits of their registers.
pub fn membarrier(kernel: &mut Kernel, caller: Caller, saved: &mut Saved) -> CallEnd
    requires { IsCaller kernel.old caller.here.0 caller.tid.0 }
    ensures made { (h : Here) (m : Map) → h.hart ≡ caller.here.0 → h.setting.limits.harts ≡ caller.harts
        → running_harts h.kernel.threads h.setting.limits.harts ≡ caller.running
        → HoldsTables kernel.old h.kernel → HasPages h m
        → saved.old ≡ h.file caller.tid.0
        → IsMade h caller.tid.0 kernel.old m kernel.new m saved.new result (membarrier h caller.tid.0) }
{
    let cmd = signed_argument(saved, 0);
    let flags = int_argument(saved, 1);
    let cpu = signed_argument(saved, 2);
    let outcome = command(
        &mut kernel.registered,
        cmd,
        flags,
        cpu,
        caller.here,
        caller.running,
        caller.harts,
    );
    end_command(saved, outcome)
}
