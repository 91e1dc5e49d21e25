//! A process on a machine of two harts, whose threads call.

ghost use Rattle.std.specs.Prelude.{◌≡◌, ◌<◌, ◌+◌, None, Some, is_some, if◌then◌else◌};
ghost use Rattle.mach_types.specs.Kernel.Threads.{running_on, state_of};
ghost use Rattle.mach_types.specs.Kernel.Scheduling.{Scheduling};
ghost use Rattle.mach_types.specs.declared.threads.ThreadState.TheVariants.{Ready, Running};
ghost use Rattle.block_model.specs.Calls.Barriers.{running_harts};
ghost use Rattle.block_model.specs.Tables.{AreOfLive, AreSignalsOfLive, IsTables};
ghost use Rattle.sys_calls.specs.Registered.{areas_by_number};

use crate::calls::words::EXIT;
use elf_load::load;
use frame_pool::FramePool;
use kernel_threads::Threads;
use mach_types::{Area, Hart, Limits, Registered, Regs, Saved, ThreadState, Tid, UserMem, Write};
use page_map::PageMap;
use signals::Signals;
use std::alloc::Global;
use std::process::Abort;
use std::test::Fail;
use sys_calls::{Areas, CallEnd, Called, Console, Kernel, area_of, make_call};

/// A page of instructions, which can be read and can't be written.
pub const CODE: u64 = 0x10000;

/// Two pages of zeros that can be read and written.
pub const DATA: u64 = 0x20000;

/// The first address behind them: no page is there.
pub const DATA_END: u64 = 0x22000;

/// Addresses of a process end here.
pub const USER_END: u64 = 0x40_0000_0000;

/// The concurrency id that each thread holds that calls.
pub const CID: u8 = 5;

/// A program of two segments: the first has the headers and `ecall`, and the second is [`DATA`].
const FILE: [u8; 180] = [
    0x7f, 0x45, 0x4c, 0x46, 0x02, 0x01, 0x01, 0x00, 0x00, 0x00, 0x00, 0x00, 0x00, 0x00, 0x00, 0x00,
    0x02, 0x00, 0xf3, 0x00, 0x01, 0x00, 0x00, 0x00, 0xb0, 0x00, 0x01, 0x00, 0x00, 0x00, 0x00, 0x00,
    0x40, 0x00, 0x00, 0x00, 0x00, 0x00, 0x00, 0x00, 0x00, 0x00, 0x00, 0x00, 0x00, 0x00, 0x00, 0x00,
    0x00, 0x00, 0x00, 0x00, 0x40, 0x00, 0x38, 0x00, 0x02, 0x00, 0x00, 0x00, 0x00, 0x00, 0x00, 0x00,
    0x01, 0x00, 0x00, 0x00, 0x05, 0x00, 0x00, 0x00, 0x00, 0x00, 0x00, 0x00, 0x00, 0x00, 0x00, 0x00,
    0x00, 0x00, 0x01, 0x00, 0x00, 0x00, 0x00, 0x00, 0x00, 0x00, 0x01, 0x00, 0x00, 0x00, 0x00, 0x00,
    0xb4, 0x00, 0x00, 0x00, 0x00, 0x00, 0x00, 0x00, 0xb4, 0x00, 0x00, 0x00, 0x00, 0x00, 0x00, 0x00,
    0x00, 0x10, 0x00, 0x00, 0x00, 0x00, 0x00, 0x00, 0x01, 0x00, 0x00, 0x00, 0x06, 0x00, 0x00, 0x00,
    0x00, 0x00, 0x00, 0x00, 0x00, 0x00, 0x00, 0x00, 0x00, 0x00, 0x02, 0x00, 0x00, 0x00, 0x00, 0x00,
    0x00, 0x00, 0x02, 0x00, 0x00, 0x00, 0x00, 0x00, 0x00, 0x00, 0x00, 0x00, 0x00, 0x00, 0x00, 0x00,
    0x00, 0x20, 0x00, 0x00, 0x00, 0x00, 0x00, 0x00, 0x00, 0x10, 0x00, 0x00, 0x00, 0x00, 0x00, 0x00,
    0x73, 0x00, 0x00, 0x00,
];

/// The pages of the program at its start.
fn booted(alloc: Global) -> Result<PageMap, Fail> {
    let limits = Limits {
        harts: 2,
        frames: 128,
        steps: 1,
    };
    let image = load(alloc, &FILE, &limits)?;
    let pool = FramePool::new(alloc, limits.frames)?;
    Ok(PageMap::boot(alloc, pool, &image)?)
}

/// The registers of a thread that calls: the number in a7, and the arguments from a0 on.
fn asking(number: u64, arguments: [u64; 5]) -> Saved {
    let [a0, a1, a2, a3, a4] = arguments;
    let mut file = Regs::new();
    file.set(17, number);
    file.set(10, a0);
    file.set(11, a1);
    file.set(12, a2);
    file.set(13, a3);
    file.set(14, a4);
    Saved { file, pc: CODE }
}

/// No thread may run on the hart.
fn expect_idle(rt: &impl Abort, threads: &Threads, hart: Hart)
    requires { (sc : Scheduling) × IsTables 2 threads.now.threads sc }
    ensures { running_on hart.0 threads.now.threads ≡ None }
{
    let given = threads.numbers_given();
    assert!(rt; given < 1000);
    for number in 0..given + 1 {
        assert!(rt; threads.state(Tid(number)) != Some(ThreadState::Running(hart)));
    }
}

/// A hart on which a thread runs is busy.
fn busy_with(threads: &Threads, tid: Tid, hart: Hart) -> bool
    requires tables { (sc : Scheduling) × IsTables 2 threads.now.threads sc }
    requires at { state_of tid.0 threads.now.threads ≡ Some (Running hart) }
    ensures { result ≡ is_some (running_on hart.0 threads.now.threads) }
{
    let _ = threads.state(tid);
    true
}

/// Whether a thread runs on the hart.
fn is_busy(rt: &impl Abort, threads: &Threads, hart: Hart) -> bool
    requires { (sc : Scheduling) × IsTables 2 threads.now.threads sc }
    ensures { result ≡ is_some (running_on hart.0 threads.now.threads) }
{
    let given = threads.numbers_given();
    assert!(rt; given < 1000);
    for number in 0..given + 1 {
        let tid = Tid(number);
        if threads.state(tid) == Some(ThreadState::Running(hart)) {
            return busy_with(threads, tid, hart);
        }
    }
    false
}

/// The set of those of two harts that are busy.
fn busy_set(first: bool, second: bool) -> u8
    ensures { result ≡ (if first then 1 else 0) + (if second then 2 else 0) }
{
    match (first, second) {
        (false, false) => 0,
        (true, false) => 1,
        (false, true) => 2,
        (true, true) => 3,
    }
}

/// The set of the harts on which threads run.
fn running(rt: &impl Abort, threads: &Threads) -> u8
    requires { (sc : Scheduling) × IsTables 2 threads.now.threads sc }
    ensures { running_harts threads.now.threads 2 ≡ result }
{
    let first = is_busy(rt, threads, Hart(0));
    let second = is_busy(rt, threads, Hart(1));
    busy_set(first, second)
}

/// The thread must be ready.
fn expect_ready(rt: &impl Abort, threads: &Threads, tid: Tid)
    ensures { state_of tid.0 threads.now.threads ≡ Some Ready }
{
    assert!(rt;
        threads.state(tid) == Some(ThreadState::Ready),
        "thread {}",
        tid.0
    );
}

/// The hart on which the thread must run.
fn hart_of(rt: &impl Abort, threads: &Threads, tid: Tid) -> Hart
    ensures { state_of tid.0 threads.now.threads ≡ Some (Running result) }
{
    match threads.state(tid) {
        Some(ThreadState::Running(hart)) => hart,
        _ => panic!(rt; "thread {} doesn't run", tid.0),
    }
}

/// The arguments of a call, and its answer: a number, or the negative of an error number.
pub type Row = ([u64; 5], i64);

/// A process whose threads run on two harts.
#[derive(Drop)]
pub struct Bench {
    kernel: Kernel,
    pages: PageMap,
    ghost tables: { IsTables 2 kernel.threads.threads kernel.ready },
    ghost signals: { AreSignalsOfLive kernel.threads.threads kernel.signals },
    ghost areas: { AreOfLive kernel.threads.threads (areas_by_number kernel.areas.items) },
}

impl Bench {
    /// A process whose one thread, 1, runs on hart 0.
    pub fn new(rt: &impl Abort, alloc: Global) -> Result<Bench, Fail> {
        let start = asking(0, [0; 5]);
        let kernel = Kernel {
            threads: Threads::new(alloc, start)?,
            signals: Signals::new(),
            ready: scheduler::Ready::new(2),
            areas: Areas::new(),
            registered: Registered {
                global: false,
                private: false,
                rseq: false,
            },
            console: Console::new(alloc)?,
            random: 0,
        };
        let pages = booted(alloc)?;
        let mut bench = Bench { kernel, pages };
        let _start = bench.begin(rt, 0, 1);
        Ok(bench)
    }

    /// A ready thread begins to run on a hart, which must be idle; answers the registers that it goes on
    /// with.
    pub fn begin(&mut self, rt: &impl Abort, hart: u8, tid: u32) -> Saved
        requires { hart < 2 }
    {
        let (tid, hart) = (Tid(tid), Hart(hart));
        expect_idle(rt, &self.kernel.threads, hart);
        expect_ready(rt, &self.kernel.threads, tid);
        let saved = self.kernel.threads.run(tid, hart);
        let _was_ready = self.kernel.ready.take(tid);
        saved
    }

    /// A call of a thread, which must run.
    pub fn call(&mut self, rt: &impl Abort, tid: u32, number: u64, arguments: [u64; 5]) -> Called {
        let mut saved = asking(number, arguments);
        self.call_with(rt, tid, &mut saved)
    }

    /// The call that the registers of a thread ask for, which must run.
    pub fn call_with(&mut self, rt: &impl Abort, tid: u32, saved: &mut Saved) -> Called {
        let hart = hart_of(rt, &self.kernel.threads, Tid(tid));
        let running = running(rt, &self.kernel.threads);
        assert!(rt; self.kernel.threads.numbers_given() < 1000);
        make_call(
            &mut self.kernel,
            &mut self.pages,
            hart,
            running,
            2,
            Tid(tid),
            saved,
            CID,
        )
    }

    /// A call must end so.
    pub fn expect_end(
        &mut self,
        rt: &impl Abort,
        tid: u32,
        number: u64,
        arguments: [u64; 5],
        end: CallEnd,
    ) {
        let called = self.call(rt, tid, number, arguments);
        assert!(rt;
            called.end == end,
            "call {number} {:x} {:x}",
            arguments[0],
            arguments[1]
        );
    }

    /// The calls of one number must be answered as the rows say, and the thread goes on.
    pub fn expect_answers(&mut self, rt: &impl Abort, tid: u32, number: u64, rows: &[Row]) {
        for (arguments, answer) in rows {
            self.expect_end(rt, tid, number, *arguments, CallEnd::Return(*answer));
        }
    }

    /// A ready thread begins to run on hart 1, and exits at once; it isn't the last one.
    pub fn exit(&mut self, rt: &impl Abort, tid: u32) {
        let _saved = self.begin(rt, 1, tid);
        self.expect_end(rt, tid, EXIT, [0; 5], CallEnd::ThreadEnd);
        self.expect_state(rt, tid, None);
    }

    /// A call of thread 1 must be answered so, with these writes of the kernel.
    pub fn expect_writes(
        &mut self,
        rt: &impl Abort,
        number: u64,
        arguments: [u64; 5],
        answer: i64,
        writes: &[Write],
    ) {
        let called = self.call(rt, 1, number, arguments);
        assert!(rt; called.end == CallEnd::Return(answer), "call {number}");
        assert!(rt; called.written.as_slice() == writes, "call {number}");
    }

    /// Writes 8 bytes to memory.
    pub fn put(&mut self, rt: &impl Abort, at: u64, value: u64) {
        assert!(rt; self.pages.set(at, 8, value));
    }

    /// Writes 8 bytes to memory, at each of these addresses.
    pub fn put_all(&mut self, rt: &impl Abort, rows: &[(u64, u64)]) {
        for (at, value) in rows {
            self.put(rt, *at, *value);
        }
    }

    /// The 8 bytes in memory must be these.
    pub fn expect_memory(&self, rt: &impl Abort, at: u64, value: u64) {
        assert!(rt; self.pages.get(at, 8) == Some(value), "at {at:x}");
    }

    /// These bytes must have been written to the console.
    pub fn expect_console(&self, rt: &impl Abort, bytes: &[u8]) {
        assert!(rt; self.kernel.console.bytes() == bytes);
    }

    /// So many threads must live.
    pub fn expect_live(&self, rt: &impl Abort, count: u8) {
        assert!(rt; self.kernel.threads.live() == count);
    }

    /// A thread must be in this state; None of one that isn't live.
    pub fn expect_state(&self, rt: &impl Abort, tid: u32, state: Option<ThreadState>) {
        assert!(rt;
            self.kernel.threads.state(Tid(tid)) == state,
            "thread {tid}"
        );
    }

    /// A thread must have this area registered.
    pub fn expect_area(&self, rt: &impl Abort, tid: u32, area: Option<Area>) {
        assert!(rt; area_of(&self.kernel, Tid(tid)) == area, "thread {tid}");
    }

    /// The signal that comes next to a thread must be this one; None of one that isn't live.
    pub fn expect_next(&self, rt: &impl Abort, tid: u32, next: Option<u8>) {
        let signals = &self.kernel.signals;
        let comes = if signals.is_held(Tid(tid)) {
            signals.next_for(Tid(tid))
        } else {
            None
        };
        assert!(rt; comes == next, "thread {tid}");
    }

    /// The first ready threads that may run on the harts must be these.
    pub fn expect_first(&self, rt: &impl Abort, first: &[Option<Tid>; 2]) {
        assert!(rt; self.kernel.ready.first_for(Hart(0)) == first[0]);
        assert!(rt; self.kernel.ready.first_for(Hart(1)) == first[1]);
    }
}
