//! Facts: what came of an event.

use crate::areas::AreaField;
use crate::calls::SystemCall;
use crate::faults::FaultWhy;
use crate::interruptions::Interruption;
use crate::killing::KillWhy;
use crate::threads::ThreadChange;
use mach_types::{Hart, Store, Tid};

/// Where a byte comes from that is read.
#[derive(Clone, Copy, Drop)]
pub enum Source {
    /// It stands in memory since the start: no write has entered there.
    Start,
    /// It stands in memory, and the event of this line wrote it there.
    Memory(u32),
    /// It is that of a store that waits, which was executed in this line.
    Waiting(u32),
}

/// One thing that came of an event.
#[derive(Clone, Copy, Drop)]
pub enum Fact {
    /// The `size` bytes at `at` were read, all of which come from one place; `value` is their number.
    Read {
        at: u64,
        size: u8,
        value: u64,
        source: Source,
    },
    /// A store was executed, and waits.
    Waits(Store),
    /// A store entered memory where the number `old` was; it was executed in line `line`.
    Entered {
        store: Store,
        old: u64,
        line: u32,
    },
    /// The kernel made this write in line `line`.
    KernelWrote {
        store: Store,
        line: u32,
    },
    /// The `length` bytes at `at` became 0.
    Zeroed {
        at: u64,
        length: u64,
    },
    /// An LR reserved the 8 bytes at `at`.
    Reserved {
        at: u64,
    },
    /// An SC used the reservation of the 8 bytes at `at`.
    Used {
        at: u64,
    },
    /// An SC in the 8 bytes at `at` failed, which weren't reserved.
    Failed {
        at: u64,
    },
    /// The hart's reservation of the 8 bytes at `at` ended.
    Ended {
        at: u64,
    },
    /// Another hart lost its reservation of the 8 bytes at `at` to the write at `by`.
    Lost {
        hart: Hart,
        at: u64,
        by: u64,
    },
    /// Register `number` of the thread that made the event has another value: this.
    Register {
        number: u8,
        value: u64,
    },
    /// The event is a fault, which has this signal, at this address: that of the access, or else the pc.
    Faulted {
        signal: u8,
        why: FaultWhy,
        at: u64,
    },
    /// The hart took the requests of the barriers that these harts' threads began, one bit each; whether one
    /// of these asks for a restart.
    RequestsTaken {
        harts: u8,
        restart: bool,
    },
    /// The barrier of the hart's thread returns.
    BarrierReturns,
    /// The event is this system call.
    Called(SystemCall),
    /// The call answered this value.
    Answered {
        value: u64,
    },
    /// The call was refused with this error number.
    Refused {
        errno: u16,
    },
    /// The call answers later: its thread waits, or a barrier that it began.
    AnsweredLater,
    /// The call began a barrier, for which these harts have to take its request, one bit each.
    BarrierBegins {
        harts: u8,
    },
    /// The thread that made the event was interrupted (rseq(2)), and it came to this.
    Interrupted(Interruption),
    /// This signal was delivered, and the thread entered the handler at `at`, with its frame at `frame`.
    HandlerEntered {
        signal: u8,
        at: u64,
        frame: u64,
    },
    /// The delivery of this signal ended the process.
    DeliveryKills {
        signal: u8,
    },
    /// This signal came to be pending for a thread.
    SignalPosted {
        signal: u8,
        tid: Tid,
    },
    /// This signal is pending for a thread no longer, and wasn't delivered.
    SignalDropped {
        signal: u8,
        tid: Tid,
    },
    /// This became of a thread.
    ThreadChanged {
        tid: Tid,
        change: ThreadChange,
    },
    /// Register `number` of another thread has this value: of one that was woken another one than before, of one that was
    /// created another one than its parent's.
    ThreadRegister {
        tid: Tid,
        number: u8,
        value: u64,
    },
    /// The field of the thread's area has this number (rseq(2)), which is another one than before the event.
    AreaWord {
        field: AreaField,
        value: u64,
    },
    /// The call has no answer: its thread or the process ended, or the thread goes on with what stands in a
    /// signal frame.
    NoAnswer,
    /// The event ended the process by a signal, since this was the case.
    Killed(KillWhy),
}
