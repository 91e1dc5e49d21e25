//! The table of threads.

ghost use Rattle.std.specs.Prelude.{◌≡◌, ◌∷◌, [], ◌+◌, ◌-◌, ◌^◌, ◌<◌, ◌↔◌, not, filter, length, slice_get, IfOk, IfErr, OnOk, OnErr, IsErr, IfSome, IfNone, IsTrue, Some, None};
ghost use Rattle.std.specs.Option.{option_map};
ghost use Rattle.kernel_threads.specs.Rows.{all_saved_in, new_row, threads_in};
ghost use Rattle.kernel_threads.specs.Table as spec;
ghost use Rattle.mach_types.specs.Kernel.Threads as process;
ghost use Rattle.mach_types.specs.declared.errors.TheConstants.{EAGAIN};
ghost use Rattle.mach_types.specs.declared.threads.ThreadState.TheVariants.{Ready, Running, Waiting};

use crate::rows::{self, Row, Rows, Stage};
use crate::waiters::{self, Waiter, Waiters};
use arrayvec::ArrayVec;
use mach_types::errors::{EAGAIN, EINTR};
use mach_types::{Errno, Hart, Saved, ThreadState, Tid};
use std::alloc::{AllocError, Global};
use std::marker::Model;

/// The register of a call's answer, a0.
const A0: u8 = 10;

/// -EINTR, the answer of a wait that a signal broke.
const INTERRUPTED: u64 = u64::MAX - (EINTR.0 as u64 - 1);

/// The rows of the live threads, and those that wait, the longest waiting first.
#[derive(Drop)]
struct Slots {
    rows: Rows,
    waiters: Waiters,
}

/// The threads of a process: thread 1 and those that it and its children made, at most 64 at a time.
#[derive(Drop)]
pub struct Threads {
    slots: Box<Slots>,
    given: u32,
}

impl Model for Threads {
    ghost use Rattle.kernel_threads.specs.Table.{Table};

    ghost Value = { Table };

    ghost use Rattle.kernel_threads.specs.Rows.{table_in};
    ghost use Rattle.kernel_threads.specs.Waits.{IsKept, numbers_of};

    ghost view = { λ t. table_in t.slots.value.rows.items t.given (numbers_of t.slots.value.waiters.items) };

    ghost invariant = { λ t. IsKept t.slots.value.rows.items t.given t.slots.value.waiters.items };
}

/// What a thread was saved with, with this answer of its call.
fn answering(saved: Saved, value: u64) -> Saved
    ensures { result ≡ spec.answering value saved }
{
    let mut file = saved.file;
    file.set(A0, value);
    Saved { file, pc: saved.pc }
}

impl Slots {
    /// The row of thread 1 alone, ready with `start`, and no waiter.
    fn start_over(&mut self, start: Saved)
        ensures rows { self.new.rows.items ≡ new_row 1 start ∷ [] }
        ensures waiters { self.new.waiters.items ≡ [] }
    {
        self.rows.clear();
        self.rows.push(Row::new(1, start));
        self.waiters.clear();
    }

    /// The rows and the waiters of another table.
    fn copy_from(&mut self, other: &Slots)
        ensures rows { self.new.rows.items ≡ other.now.rows.items }
        ensures waiters { self.new.waiters.items ≡ other.now.waiters.items }
    {
        self.rows.clear();
        let _ = self.rows.try_extend_from_slice(&other.rows);
        self.waiters.clear();
        let _ = self.waiters.try_extend_from_slice(&other.waiters);
    }
}

impl Threads {
    /// Thread 1 alone, ready with `start`. Fails only where memory is short.
    pub fn new(alloc: Global, start: Saved) -> Result<Threads, AllocError>
        ensures start { IfOk result (λ t. t ≡ spec.start_table start) }
        ensures table { IfOk result (λ t. spec.IsTable t) }
    {
        let mut rows = ArrayVec::new();
        rows.push(Row::new(1, start));
        let waiters = ArrayVec::new();
        let slots = Box::new(alloc, Slots { rows, waiters })?;
        Ok(Threads { slots, given: 1 })
    }

    /// Thread 1 alone again, ready with `start`. It takes no memory.
    pub fn reset(&mut self, start: Saved)
        ensures start { self.new ≡ spec.start_table start }
        ensures table { spec.IsTable self.new }
    {
        self.slots.start_over(start);
        self.given = 1;
    }

    /// The threads of another table, in place of its own. It takes no memory.
    pub fn copy_from(&mut self, other: &Threads)
        ensures { self.new ≡ other.now }
    {
        self.slots.copy_from(&other.slots);
        self.given = other.given;
    }

    /// Makes a child of a live thread, ready with `start`, and answers its number: the next one (clone(2)).
    /// EAGAIN exactly where as many threads live as may. Fewer than 2^31 - 1 numbers were given.
    pub fn clone_thread(&mut self, parent: Tid, start: Saved) -> Result<Tid, Errno>
        requires parent { IsTrue (process.is_live parent.0 self.old.threads) }
        requires numbers { self.old.threads.given < 2 ^ 31 - 1 }
        ensures full { IsErr result ↔ IsTrue (process.is_full self.old.threads) }
        ensures errno { IfErr result (λ e. e ≡ EAGAIN) }
        ensures unchanged { OnErr result (self.new ≡ self.old) }
        ensures number { IfOk result (λ t. t.0 ≡ self.old.threads.given + 1) }
        ensures threads { OnOk result (self.new.threads ≡ process.with_child self.old.threads) }
        ensures saved { OnOk result (
            self.new.saved ≡ spec.with_start (self.old.threads.given + 1) start self.old.saved) }
        ensures table { spec.IsTable self.new }
    {
        if self.slots.rows.is_full() {
            return Err(EAGAIN);
        }
        let number = self.given + 1;
        self.slots.rows.push(Row::new(number, start));
        self.given = number;
        Ok(Tid(number))
    }

    /// Ends a live thread (exit(2)).
    pub fn exit(&mut self, tid: Tid)
        requires { IsTrue (process.is_live tid.0 self.old.threads) }
        ensures threads { self.new.threads ≡ process.without tid.0 self.old.threads }
        ensures saved { self.new.saved ≡ spec.forget tid.0 self.old.saved }
        ensures table { spec.IsTable self.new }
    {
        rows::remove(&mut self.slots.rows, tid.0);
        waiters::take_out(&mut self.slots.waiters, tid.0);
    }

    /// Lets a ready thread run on a hart, and answers what it was saved with.
    pub fn run(&mut self, tid: Tid, hart: Hart) -> Saved
        requires { process.state_of tid.0 self.old.threads ≡ Some Ready }
        ensures answer { Some result ≡ spec.saved_of tid.0 self.old.saved }
        ensures threads { self.new.threads ≡ process.with_state tid.0 (Running hart) self.old.threads }
        ensures saved { self.new.saved ≡ spec.with_saved tid.0 None self.old.saved }
        ensures table { spec.IsTable self.new }
    {
        let Some(saved) = rows::saved_of(&self.slots.rows, tid.0) else {
            unreachable!()
        };
        rows::set_stage(&mut self.slots.rows, tid.0, Stage::Running(hart));
        saved
    }

    /// Makes a running thread ready again, with this.
    pub fn leave(&mut self, tid: Tid, saved: Saved)
        requires { process.runs self.old.threads tid.0 }
        ensures threads { self.new.threads ≡ process.with_state tid.0 Ready self.old.threads }
        ensures saved { self.new.saved ≡ spec.with_saved tid.0 (Some saved) self.old.saved }
        ensures table { spec.IsTable self.new }
    {
        rows::set_stage(&mut self.slots.rows, tid.0, Stage::Ready(saved));
    }

    /// Lets a running thread wait at an address, behind all that wait; it goes on with this (futex(2)).
    pub fn wait(&mut self, tid: Tid, at: u64, saved: Saved)
        requires { process.runs self.old.threads tid.0 }
        ensures threads { self.new.threads ≡ process.with_waiter tid.0 at self.old.threads }
        ensures saved { self.new.saved ≡ spec.with_saved tid.0 (Some saved) self.old.saved }
        ensures table { spec.IsTable self.new }
    {
        rows::set_stage(&mut self.slots.rows, tid.0, Stage::Waiting(at, saved));
        self.slots.waiters.push(Waiter { number: tid.0, at });
    }

    /// The number of the thread that waits longest at an address, of those that hear a wake with this mask, or without one.
    fn longest_waiter(&self, at: u64, mask: Option<u32>) -> Option<u32>
        ensures longest { result
            ≡ process.longest_waiter at (spec.hears_saved mask self.now.saved) self.now.threads }
        ensures table { spec.IsTable self.now }
    {
        let waiters = self.slots.waiters.as_slice();
        waiters::first_at(waiters, &self.slots.rows, at, mask)
    }

    /// Makes a waiting thread ready, with this answer of its wait.
    fn wake(&mut self, number: u32, answer: u64)
        requires { process.waits self.old.threads number }
        ensures threads { self.new.threads ≡ process.with_woken number self.old.threads }
        ensures saved { self.new.saved ≡ spec.with_answer number answer self.old.saved }
        ensures table { spec.IsTable self.new }
    {
        let Some(saved) = rows::saved_of(&self.slots.rows, number) else {
            unreachable!()
        };
        let ready = Stage::Ready(answering(saved, answer));
        rows::set_stage(&mut self.slots.rows, number, ready);
        waiters::take_out(&mut self.slots.waiters, number);
    }

    /// Makes a thread ready, its wait answering 0, and answers which it is: of those that wait at an address and hear
    /// a wake with this mask, or without one, the one that waits longest. None exactly where there is none (futex(2)).
    pub fn wake_one(&mut self, at: u64, mask: Option<u32>) -> Option<Tid>
        ensures longest { option_map (λ t. t.0) result
            ≡ process.longest_waiter at (spec.hears_saved mask self.old.saved) self.old.threads }
        ensures nobody { IfNone result (self.new ≡ self.old) }
        ensures threads { IfSome result (λ t. self.new.threads ≡ process.with_woken t.0 self.old.threads) }
        ensures saved { IfSome result (λ t. self.new.saved ≡ spec.with_answer t.0 0 self.old.saved) }
        ensures was_table { spec.IsTable self.old }
        ensures table { spec.IsTable self.new }
    {
        let number = self.longest_waiter(at, mask)?;
        self.wake(number, 0);
        Some(Tid(number))
    }

    /// Makes a waiting thread ready, its wait answering -EINTR (futex(2)).
    pub fn break_wait(&mut self, tid: Tid)
        requires { process.waits self.old.threads tid.0 }
        ensures threads { self.new.threads ≡ process.with_woken tid.0 self.old.threads }
        ensures saved { self.new.saved ≡ spec.with_answer tid.0 spec.interrupted self.old.saved }
        ensures table { spec.IsTable self.new }
    {
        self.wake(tid.0, INTERRUPTED);
    }

    /// The address of the word that the exit of a live thread clears, 0 where none is set
    /// (set_tid_address(2)).
    pub fn clear_at(&self, tid: Tid) -> u64
        requires { IsTrue (process.is_live tid.0 self.now.threads) }
        ensures { result ≡ process.clear_of tid.0 self.now.threads }
    {
        rows::clear_of(&self.slots.rows, tid.0)
    }

    /// Sets that address.
    pub fn set_clear(&mut self, tid: Tid, at: u64)
        requires { IsTrue (process.is_live tid.0 self.old.threads) }
        ensures threads { self.new.threads ≡ process.with_clear tid.0 at self.old.threads }
        ensures saved { self.new.saved ≡ self.old.saved }
        ensures table { spec.IsTable self.new }
    {
        rows::set_clear(&mut self.slots.rows, tid.0, at);
    }

    /// How many threads live, at most 64.
    pub fn live(&self) -> u8
        ensures count { result ≡ length self.now.threads.live }
        ensures table { spec.IsTable self.now }
    {
        self.slots.rows.len() as u8
    }

    /// The rows of the live threads, in rising order of number.
    pub fn rows(&self) -> &[Row]
        ensures threads { threads_in result.now ≡ self.now.threads.live }
        ensures saved { all_saved_in result.now ≡ self.now.saved }
    {
        &self.slots.rows
    }

    /// How many threads wait.
    pub fn waiting(&self) -> u8
        ensures { result ≡ length self.now.threads.waiters }
    {
        self.slots.waiters.len() as u8
    }

    /// The waiting thread at an index, 0 for the longest waiting; None exactly where no more wait.
    pub fn waiter(&self, index: u8) -> Option<u32>
        ensures { result ≡ slice_get self.now.threads.waiters index }
    {
        Some(self.slots.waiters.get(index as usize)?.number)
    }

    /// How many numbers were given: those of thread 1 and of each child, live or gone.
    pub fn numbers_given(&self) -> u32
        ensures { result ≡ self.now.threads.given }
    {
        self.given
    }

    /// Whether a thread is live, and none is ready or runs: then all wait.
    pub fn is_stuck(&self) -> bool
        ensures { result ≡ process.is_stuck self.now.threads }
    {
        let live = self.slots.rows.len();
        live >= 1 && self.slots.waiters.len() == live
    }

    /// The state of a thread; None exactly where it isn't live.
    pub fn state(&self, tid: Tid) -> Option<ThreadState>
        ensures { result ≡ process.state_of tid.0 self.now.threads }
    {
        rows::state_of(&self.slots.rows, tid.0)
    }

    /// What a thread was saved with, and goes on with; None exactly where it runs or isn't live.
    pub fn saved(&self, tid: Tid) -> Option<Saved>
        ensures { result ≡ spec.saved_of tid.0 self.now.saved }
    {
        rows::saved_of(&self.slots.rows, tid.0)
    }
}
