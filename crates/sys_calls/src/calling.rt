//! One call.

ghost use Rattle.std.specs.Prelude.{◌≡◌, ◌<◌, ◌≤◌, ◌-◌, ◌^◌, [], Some, None};
ghost use Rattle.kernel_threads.specs.Table.{IsTable, saved_of};
ghost use Rattle.mach_types.specs.Kernel.Threads.{running_on, runs};
ghost use Rattle.block_model.specs.Here.{Here};
ghost use Rattle.block_model.specs.Calls.{called as call_done};
ghost use Rattle.block_model.specs.Calls.Barriers.{running_harts};
ghost use Rattle.block_model.specs.Tables.{AreOfLive, AreSignalsOfLive, IsTables};
ghost use Rattle.sys_calls.specs.Answered.{IsCaller};
ghost use Rattle.sys_calls.specs.Made.{IsAt, IsMade};
ghost use Rattle.sys_calls.specs.Registered.{HoldAreas, areas_by_number};

use crate::affinity::{sched_setaffinity, sched_yield};
use crate::arguments::{call_number, go_on};
use crate::barrier_call::membarrier;
use crate::call_answers::answered;
use crate::ending::{exit, exit_group};
use crate::futexes::futex;
use crate::kernel::Kernel;
use crate::memory::{Written, shows_pages};
use crate::sequences::rseq;
use crate::signal_calls::rt_sigreturn;
use arrayvec::ArrayVec;
use kernel_threads::Threads;
use mach_types::{End, Hart, Saved, Tid, Write};
use page_map::PageMap;

/// The numbers of the calls after which a thread may not go on (Linux for RISC-V).
const EXIT: u64 = 93;

const EXIT_GROUP: u64 = 94;

const FUTEX: u64 = 98;

const SCHED_SETAFFINITY: u64 = 122;

const SCHED_YIELD: u64 = 124;

const RT_SIGRETURN: u64 = 139;

const MEMBARRIER: u64 = 283;

const RSEQ: u64 = 293;

/// A thread that calls, and the machine that it runs on.
#[derive(Clone, Copy)]
pub struct Caller {
    /// The hart of the thread.
    pub here: Hart,
    /// The set of harts on which a thread runs.
    pub running: u8,
    /// How many harts there are.
    pub harts: u8,
    /// The thread.
    pub tid: Tid,
    /// The concurrency id that it holds.
    pub cid: u8,
}

/// What a call comes to.
#[derive(Clone, Copy, PartialEq, Eq, Drop)]
pub enum CallEnd {
    /// The thread goes on with this answer.
    Return(i64),
    /// The thread gave up its hart and waits.
    Block,
    /// The thread gave up its hart with this answer, and is ready.
    Leave(i64),
    /// The thread goes on with the registers that a signal frame had.
    Resume,
    /// The thread waits in a barrier for these harts, one bit each, each of which is asked to restart a sequence or not.
    Barrier { targets: u8, restart: bool },
    /// The thread ended.
    ThreadEnd,
    /// The process ended so.
    ProcessEnd(End),
}

/// What a call came to, and the writes to memory that the kernel made in it, in order.
#[derive(Drop)]
pub struct Called {
    /// How the call ended.
    pub end: CallEnd,
    /// The writes.
    pub written: ArrayVec<Write, 40>,
}

/// The call of thread `tid`, as [`call`], with the kernel's writes: the caller ends the reservations on their bytes.
pub fn make_call(
    kernel: &mut Kernel,
    pages: &mut PageMap,
    here: Hart,
    running: u8,
    harts: u8,
    tid: Tid,
    saved: &mut Saved,
    cid: u8,
) -> Called
    requires some_hart { 1 ≤ harts }
    requires eight_harts { harts ≤ 8 }
    requires hart { here.0 < harts }
    requires runs { running_on here.0 kernel.old.threads.threads ≡ Some tid.0 }
    requires running { running_harts kernel.old.threads.threads harts ≡ running }
    requires numbers { kernel.old.threads.threads.given < 2 ^ 31 - 1 }
    requires tables { IsTables harts kernel.old.threads.threads kernel.old.ready }
    requires signals { AreSignalsOfLive kernel.old.threads.threads kernel.old.signals }
    requires areas { AreOfLive kernel.old.threads.threads (areas_by_number kernel.old.areas.items) }
    ensures made { (h : Here) → IsAt h kernel.old pages.old here running harts tid saved.old cid
        → IsMade h tid.0 kernel.old pages.old kernel.new pages.new saved.new result.end (call_done h tid.0) }
    ensures table { IsTable kernel.new.threads }
    ensures tables { IsTables harts kernel.new.threads.threads kernel.new.ready }
    ensures signals { AreSignalsOfLive kernel.new.threads.threads kernel.new.signals }
    ensures areas { AreOfLive kernel.new.threads.threads (areas_by_number kernel.new.areas.items) }
    ensures written { (h : Here) → IsAt h kernel.old pages.old here running harts tid saved.old cid
        → result.written.items ≡ (call_done h tid.0).entered }
{
    has_nothing_saved(&kernel.threads, tid);
    let mut written = ArrayVec::new();
    let caller = Caller {
        here,
        running,
        harts,
        tid,
        cid,
    };
    let end = dispatch(kernel, pages, &mut written, caller, saved);
    let _ = kernel.threads.live();
    Called { end, written }
}

/// Nothing is saved of a thread that runs.
fn has_nothing_saved(threads: &Threads, tid: Tid)
    requires { runs threads.now.threads tid.0 }
    ensures { saved_of tid.0 threads.now.saved ≡ None }
{
    let _ = threads.live();
}

/// The call that the number in a7 names.
fn dispatch(
    kernel: &mut Kernel,
    pages: &mut PageMap,
    written: &mut Written,
    caller: Caller,
    saved: &mut Saved,
) -> CallEnd
    requires some_hart { 1 ≤ caller.harts }
    requires eight_harts { caller.harts ≤ 8 }
    requires caller { IsCaller kernel.old caller.here.0 caller.tid.0 }
    requires areas { HoldAreas kernel.old }
    requires numbers { kernel.old.threads.threads.given < 2 ^ 31 - 1 }
    requires fresh { written.old.items ≡ [] }
    ensures made { (h : Here)
        → IsAt h kernel.old pages.old caller.here caller.running caller.harts caller.tid saved.old caller.cid
        → IsMade h caller.tid.0 kernel.old pages.old kernel.new pages.new saved.new result
        (call_done h caller.tid.0) }
    ensures told { (h : Here)
        → IsAt h kernel.old pages.old caller.here caller.running caller.harts caller.tid saved.old caller.cid
        → written.new.items ≡ (call_done h caller.tid.0).entered }
{
    shows_pages(pages);
    match call_number(saved) {
        EXIT => exit(kernel, pages, written, caller.here, caller.tid, saved),
        EXIT_GROUP => exit_group(saved),
        FUTEX => futex(kernel, pages, caller.here, caller.tid, saved),
        SCHED_SETAFFINITY => sched_setaffinity(
            kernel,
            pages,
            caller.here,
            caller.harts,
            caller.tid,
            saved,
        ),
        SCHED_YIELD => sched_yield(kernel, caller.here, caller.tid, saved),
        RT_SIGRETURN => rt_sigreturn(kernel, pages, caller.here, caller.tid, saved),
        MEMBARRIER => membarrier(kernel, caller, saved),
        RSEQ => rseq(
            kernel,
            pages,
            written,
            caller.here,
            caller.tid,
            saved,
            caller.cid,
        ),
        number => {
            let outcome = answered(
                number,
                kernel,
                pages,
                written,
                caller.here,
                caller.tid,
                saved,
            );
            go_on(saved, outcome)
        }
    }
}

/// The call of thread `tid`, which runs on hart `here` with the registers `saved`: its number is in a7, its arguments in a0 to a5.
///
/// `running` is the set of harts on which a thread runs, one bit each: a barrier is about these. `cid` is the concurrency id that the
/// calling thread holds, from 0 on: [`rseq`] writes it into the area that it registers.
/// Which refusal comes first is own (the manual pages leave it open), and a refused call changes a0 and the pc alone.
pub fn call(
    kernel: &mut Kernel,
    pages: &mut PageMap,
    here: Hart,
    running: u8,
    harts: u8,
    tid: Tid,
    saved: &mut Saved,
    cid: u8,
) -> CallEnd
    requires some_hart { 1 ≤ harts }
    requires eight_harts { harts ≤ 8 }
    requires hart { here.0 < harts }
    requires runs { running_on here.0 kernel.old.threads.threads ≡ Some tid.0 }
    requires running { running_harts kernel.old.threads.threads harts ≡ running }
    requires numbers { kernel.old.threads.threads.given < 2 ^ 31 - 1 }
    requires tables { IsTables harts kernel.old.threads.threads kernel.old.ready }
    requires signals { AreSignalsOfLive kernel.old.threads.threads kernel.old.signals }
    requires areas { AreOfLive kernel.old.threads.threads (areas_by_number kernel.old.areas.items) }
    ensures made { (h : Here) → IsAt h kernel.old pages.old here running harts tid saved.old cid
        → IsMade h tid.0 kernel.old pages.old kernel.new pages.new saved.new result (call_done h tid.0) }
    ensures tables { IsTables harts kernel.new.threads.threads kernel.new.ready }
    ensures signals { AreSignalsOfLive kernel.new.threads.threads kernel.new.signals }
    ensures areas { AreOfLive kernel.new.threads.threads (areas_by_number kernel.new.areas.items) }
{
    make_call(kernel, pages, here, running, harts, tid, saved, cid).end
}
