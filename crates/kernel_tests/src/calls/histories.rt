//! What threads do to one another by their calls, and what the kernel writes.

use crate::calls::bench::{Bench, CID, CODE, DATA, DATA_END, Row, USER_END};
use crate::calls::steps::{Scene, Step, play};
use crate::calls::words::{
    ABOVE, ALL, AT_MAPPED, BREAK, BRK, CLONE, EAGAIN, EFAULT, EINTR, EINVAL, ESRCH, EXIT,
    EXIT_GROUP, FLAGS, FUTEX, GETCPU, GETPID, GETTID, MAPPED, MASKABLE, MMAP, MPROTECT, MUNMAP,
    PAGE, RSEQ, RT_SIGACTION, RT_SIGPROCMASK, SCHED_SETAFFINITY, SCHED_YIELD, SET_TID_ADDRESS,
    SIGNATURE, THREAD, TKILL, WRITE,
};
use mach_types::signals::SIGSEGV;
use mach_types::{Area, End, Hart, Store, ThreadState, Tid, Write};
use std::test::Fail;
use sys_calls::CallEnd;

/// No arguments, and those of a thread that is made.
const NONE: [u64; 5] = [0; 5];

const MADE: [u64; 5] = [THREAD, 0, 0, 0, 0];

/// The flag by which a thread's number is written at `ptid`, and that by which it is written at `ctid` too.
const NUMBERED: u64 = THREAD + 0x10_0000;

const NUMBERED_TWICE: u64 = NUMBERED + 0x100_0000;

/// The children of a process, and more.
const CHILD: [Row; 1] = [(MADE, 2)];

const CHILDREN: [Row; 4] = [(MADE, 2), (MADE, 3), (MADE, 4), (MADE, 5)];

/// clone(flags, stack, ptid, tls, ctid), where 64 threads live.
const CLONES_OF_64: [Row; 3] = [
    ([THREAD + 1, 0, 0, 0, 0], EINVAL),
    ([NUMBERED, 0, 0, 0, 0], EAGAIN),
    (MADE, EAGAIN),
];

/// The same, where one of them is gone: a number isn't used again.
const CLONES_OF_63: [Row; 4] = [
    ([THREAD + 1, 0, 0, 0, 0], EINVAL),
    ([NUMBERED, 0, 0, 0, 0], EFAULT),
    ([NUMBERED, 0, DATA, 0, 0], 65),
    (MADE, EAGAIN),
];

/// The first word of [`CODE`]: the first bytes of an ELF file.
const MAGIC: u64 = 0x464c_457f;

#[test]
fn sixty_four_threads_live_and_leave(rt: HostRuntime) -> Result<(), Fail> {
    let mut bench = Bench::new(&rt, rt.alloc())?;
    for number in 2..65 {
        bench.expect_answers(&rt, 1, CLONE, &[(MADE, number)]);
    }
    bench.expect_live(&rt, 64);
    bench.expect_answers(&rt, 1, CLONE, &CLONES_OF_64);
    bench.exit(&rt, 5);
    bench.expect_live(&rt, 63);
    bench.expect_answers(&rt, 1, CLONE, &CLONES_OF_63);
    for number in (2..5).chain(6..66) {
        bench.expect_first(&rt, &[Some(Tid(number)), Some(Tid(number))]);
        bench.exit(&rt, number);
    }
    bench.expect_live(&rt, 1);
    bench.expect_first(&rt, &[None, None]);
    bench.expect_answers(&rt, 1, CLONE, &[(MADE, 66)]);
    Ok(())
}

/// The first ready threads of both harts.
const NOBODY: Step = Step::First([None, None]);

const THREAD_1: Step = Step::First([Some(Tid(1)), Some(Tid(1))]);

const THREAD_2: Step = Step::First([Some(Tid(2)), Some(Tid(2))]);

const THREAD_3: Step = Step::First([Some(Tid(3)), Some(Tid(3))]);

const THREAD_4: Step = Step::First([Some(Tid(4)), Some(Tid(4))]);

/// Threads that yield, lose their hart, end, and wait at a word, until another wakes them or exits.
const MOVES: [Scene; 7] = [
    &[
        Step::Answers(CLONE, &CHILD),
        Step::End(1, SCHED_YIELD, NONE, CallEnd::Leave(0)),
        THREAD_2,
        Step::Run(0, 2),
        THREAD_1,
        Step::End(2, SCHED_YIELD, NONE, CallEnd::Leave(0)),
        Step::Run(1, 1),
        Step::End(1, SCHED_YIELD, NONE, CallEnd::Leave(0)),
        THREAD_2,
    ],
    &[
        Step::Put(DATA, 1),
        Step::Put(DATA + 8, 2),
        Step::Answers(CLONE, &CHILD),
        Step::Answer(1, SCHED_SETAFFINITY, [0, 8, DATA, 0, 0], 0),
        Step::End(
            1,
            SCHED_SETAFFINITY,
            [0, 8, DATA + 8, 0, 0],
            CallEnd::Leave(0),
        ),
        Step::Run(0, 2),
        Step::First([None, Some(Tid(1))]),
        Step::Run(1, 1),
        Step::Answer(1, CLONE, MADE, 3),
        Step::First([None, Some(Tid(3))]),
    ],
    &[
        Step::Answers(CLONE, &CHILD),
        Step::Exit(2),
        Step::End(
            1,
            EXIT,
            [u64::MAX, 0, 0, 0, 0],
            CallEnd::ProcessEnd(End::Exit(0xff)),
        ),
    ],
    &[
        Step::Answers(CLONE, &CHILD),
        Step::Run(1, 2),
        Step::Answer(2, GETPID, NONE, 1),
        Step::Answer(2, GETTID, NONE, 2),
        Step::Put(DATA, u64::MAX),
        Step::Answer(2, GETCPU, [DATA, DATA + 4, 0, 0, 0], 0),
        Step::Memory(DATA, 1),
        Step::End(
            2,
            EXIT_GROUP,
            [0x1234, 0, 0, 0, 0],
            CallEnd::ProcessEnd(End::Exit(0x34)),
        ),
    ],
    &[
        Step::Answers(CLONE, &CHILDREN),
        Step::Run(1, 4),
        Step::End(4, FUTEX, [DATA, 0, 0, 0, 0], CallEnd::Block),
        Step::Run(1, 5),
        Step::End(5, FUTEX, [DATA + 4, 128, 0, 0, 0], CallEnd::Block),
        Step::Run(1, 2),
        Step::End(2, FUTEX, [DATA, ABOVE, ABOVE, 0, 0], CallEnd::Block),
        Step::Run(1, 3),
        Step::End(3, FUTEX, [DATA, 0, 0, 0, 0], CallEnd::Block),
        Step::Answers(
            FUTEX,
            &[([DATA, 1, 0, 0, 0], 0), ([DATA, 1, ABOVE, 0, 0], 0)],
        ),
        NOBODY,
        Step::Answer(1, FUTEX, [DATA, 1, 2, 0, 0], 2),
        THREAD_4,
        Step::Exit(4),
        THREAD_2,
        Step::Exit(2),
        NOBODY,
        Step::Answer(1, FUTEX, [DATA, 1, u64::MAX, 0, 0], 1),
        THREAD_3,
        Step::Answer(1, FUTEX, [DATA, 1, 1, 0, 0], 0),
        Step::State(5, Some(ThreadState::Waiting(DATA + 4))),
    ],
    &[
        Step::Answers(CLONE, &CHILDREN),
        Step::Put(DATA, 9),
        Step::Run(1, 3),
        Step::End(3, FUTEX, [DATA, 0, 9, 0, 0], CallEnd::Block),
        Step::Run(1, 2),
        Step::End(2, FUTEX, [DATA, 0, 9, 0, 0], CallEnd::Block),
        Step::Run(1, 4),
        Step::Answer(4, SET_TID_ADDRESS, [DATA, 0, 0, 0, 0], 4),
        Step::End(4, EXIT, NONE, CallEnd::ThreadEnd),
        Step::Memory(DATA, 0),
        Step::Exit(5),
        THREAD_3,
        Step::State(2, Some(ThreadState::Waiting(DATA))),
    ],
    &[
        Step::Answers(CLONE, &CHILDREN),
        Step::Run(1, 2),
        Step::End(2, FUTEX, [CODE, 0, MAGIC, 0, 0], CallEnd::Block),
        Step::Run(1, 3),
        Step::Answer(3, SET_TID_ADDRESS, [CODE, 0, 0, 0, 0], 3),
        Step::End(3, EXIT, NONE, CallEnd::ThreadEnd),
        THREAD_4,
        Step::State(2, Some(ThreadState::Waiting(CODE))),
    ],
];

#[test]
fn threads_move_and_wait(rt: HostRuntime) -> Result<(), Fail> {
    play(&rt, rt.alloc(), &MOVES)
}

/// Signals: SIGUSR1, SIGUSR2, and one that is ignored by default, SIGCHLD.
const SIGUSR1: u64 = 10;

const SIGUSR2: u64 = 12;

const SIGCHLD: u64 = 17;

/// What a thread finds in a0 whose wait a signal broke.
const BROKEN: u64 = u64::MAX - 3;

/// Where a set stands, and an action.
const SET: u64 = DATA + 0x100;

const ACTION: u64 = DATA + 0x200;

/// A wait at [`DATA`], and a mask that is the set at [`SET`].
const WAIT: [u64; 5] = [DATA, 0, 0, 0, 0];

const MASK: [u64; 5] = [2, SET, 0, 8, 0];

/// Thread 2 waits.
const WAITS_YET: Step = Step::State(2, Some(ThreadState::Waiting(DATA)));

/// Signals that are posted by thread 1: they break the wait of a thread that doesn't mask them, and of no
/// other.
const POSTS: [Scene; 6] = [
    &[
        Step::Answers(CLONE, &CHILD),
        Step::Run(1, 2),
        Step::End(2, FUTEX, WAIT, CallEnd::Block),
        Step::Answer(1, TKILL, [2, SIGUSR1, 0, 0, 0], 0),
        Step::Next(2, Some(10)),
        THREAD_2,
        Step::Wakes(1, 2, BROKEN),
        Step::Answer(1, FUTEX, [DATA, 1, 1, 0, 0], 0),
        Step::Answer(2, FUTEX, [DATA, 0, 0, 1, 0], EINVAL),
        Step::Answer(2, FUTEX, [8, 0, 0, 0, 0], EFAULT),
        Step::Answer(2, FUTEX, [DATA, 0, 1, 0, 0], EAGAIN),
        Step::Answer(2, FUTEX, WAIT, EINTR),
    ],
    &[
        Step::Answers(CLONE, &CHILD),
        Step::Run(1, 2),
        Step::Put(SET, 1 << 9),
        Step::Answer(2, RT_SIGPROCMASK, MASK, 0),
        Step::End(2, FUTEX, WAIT, CallEnd::Block),
        Step::Answer(1, TKILL, [2, SIGUSR1, 0, 0, 0], 0),
        WAITS_YET,
        Step::Answer(1, FUTEX, [DATA, 1, 1, 0, 0], 1),
        Step::Wakes(1, 2, 0),
        Step::Next(2, None),
        Step::Put(SET, u64::MAX - (1 << 11)),
        Step::Answer(2, RT_SIGPROCMASK, MASK, 0),
        Step::End(2, FUTEX, WAIT, CallEnd::Block),
        Step::Answer(1, TKILL, [2, SIGUSR2, 0, 0, 0], 0),
        Step::Wakes(1, 2, BROKEN),
        Step::Put(SET, 0),
        Step::Answer(2, RT_SIGPROCMASK, MASK, 0),
        Step::Next(2, Some(10)),
    ],
    &[
        Step::Answers(CLONE, &CHILD),
        Step::Run(1, 2),
        Step::End(2, FUTEX, WAIT, CallEnd::Block),
        Step::Put(ACTION, 1),
        Step::Answer(1, RT_SIGACTION, [SIGUSR1, ACTION, 0, 8, 0], 0),
        Step::Answer(1, TKILL, [2, SIGUSR1, 0, 0, 0], 0),
        Step::Answer(1, TKILL, [2, SIGCHLD, 0, 0, 0], 0),
        Step::Answer(1, TKILL, [2, 0, 0, 0, 0], 0),
        WAITS_YET,
        Step::Next(2, None),
        Step::Answer(1, TKILL, [2, SIGUSR2, 0, 0, 0], 0),
        Step::Answer(1, RT_SIGACTION, [SIGUSR2, ACTION, 0, 8, 0], 0),
        Step::Next(2, None),
        Step::Wakes(1, 2, BROKEN),
    ],
    &[
        Step::Answers(CLONE, &CHILD),
        Step::Answer(1, TKILL, [1, SIGUSR2, 0, 0, 0], 0),
        Step::Answer(1, TKILL, [1, SIGUSR1, 0, 0, 0], 0),
        Step::State(1, Some(ThreadState::Running(Hart(0)))),
        Step::Next(1, Some(10)),
        Step::Next(2, None),
        Step::Answer(1, FUTEX, WAIT, EINTR),
    ],
    &[
        Step::Put(SET, 1 << 9),
        Step::Answer(1, RT_SIGPROCMASK, MASK, 0),
        Step::Answer(1, TKILL, [1, SIGUSR1, 0, 0, 0], 0),
        Step::Answer(1, TKILL, [1, SIGUSR2, 0, 0, 0], 0),
        Step::Answers(CLONE, &CHILD),
        Step::Next(1, Some(12)),
        Step::Next(2, None),
        Step::Run(1, 2),
        Step::Answer(2, RT_SIGPROCMASK, [0, 0, DATA, 8, 0], 0),
        Step::Memory(DATA, 1 << 9),
        Step::Put(SET, 0),
        Step::Answer(2, RT_SIGPROCMASK, MASK, 0),
        Step::Next(2, None),
    ],
    &[
        Step::Answers(CLONE, &[(MADE, 2), (MADE, 3)]),
        Step::Answer(1, TKILL, [2, SIGUSR1, 0, 0, 0], 0),
        Step::Answer(1, TKILL, [3, SIGUSR2, 0, 0, 0], 0),
        Step::Exit(2),
        Step::Next(2, None),
        Step::Next(3, Some(12)),
        Step::Answer(1, TKILL, [2, SIGUSR1, 0, 0, 0], ESRCH),
        Step::Answer(1, CLONE, MADE, 4),
        Step::Next(4, None),
    ],
];

#[test]
fn signals_are_posted(rt: HostRuntime) -> Result<(), Fail> {
    play(&rt, rt.alloc(), &POSTS)
}

/// The area of the tests, and another one.
const AREA: Area = Area {
    at: DATA,
    sig: 0xf140_1073,
};

const OTHER: Area = Area {
    at: DATA + 32,
    sig: 0xf140_1073,
};

/// rseq(area, len, flags, sig): an area is registered, and taken back.
const REGISTER: [u64; 5] = [DATA, 32, 0, SIGNATURE, 0];

const UNREGISTER: [u64; 5] = [DATA, 32, 1, SIGNATURE, 0];

/// The process is killed by SIGSEGV.
const KILLED: CallEnd = CallEnd::ProcessEnd(End::Killed(SIGSEGV));

/// An area that can't be written is an error, or kills; one goes with its thread, and is that of its thread.
const AREAS: [Scene; 2] = [
    &[
        Step::End(1, RSEQ, [CODE, 32, 0, SIGNATURE, 0], KILLED),
        Step::End(1, RSEQ, [USER_END - 32, 32, 0, SIGNATURE, 0], KILLED),
        Step::HasArea(1, None),
        Step::Answer(1, RSEQ, REGISTER, 0),
        Step::Answer(1, MPROTECT, [DATA, PAGE, 1, 0, 0], 0),
        Step::Answer(1, RSEQ, UNREGISTER, EFAULT),
        Step::HasArea(1, Some(AREA)),
        Step::Answer(1, MPROTECT, [DATA, PAGE, 3, 0, 0], 0),
        Step::Answer(1, RSEQ, UNREGISTER, 0),
        Step::HasArea(1, None),
    ],
    &[
        Step::Answer(1, RSEQ, [OTHER.at, 32, 0, SIGNATURE, 0], 0),
        Step::Answers(CLONE, &CHILD),
        Step::HasArea(2, None),
        Step::Run(1, 2),
        Step::Answer(2, RSEQ, REGISTER, 0),
        Step::Memory(DATA, 0x1_0000_0001),
        Step::HasArea(2, Some(AREA)),
        Step::End(2, EXIT, NONE, CallEnd::ThreadEnd),
        Step::HasArea(2, None),
        Step::HasArea(1, Some(OTHER)),
    ],
];

#[test]
fn areas_go_with_their_threads(rt: HostRuntime) -> Result<(), Fail> {
    play(&rt, rt.alloc(), &AREAS)
}

/// The kernel's write of a u32.
macro_rules! word {
    ($at:expr, $value:expr) => {
        Write::Stored(Store { at: $at, size: 4, value: $value })
    };
}

/// The kernel's write of 8 bytes.
macro_rules! double {
    ($at:expr, $value:expr) => {
        Write::Stored(Store { at: $at, size: 8, value: $value })
    };
}

/// The zeros of pages that are mapped.
macro_rules! zeros {
    ($at:expr, $length:expr) => {
        Write::Zeroed { at: $at, length: $length }
    };
}

/// The words of an area at [`DATA`]: the processor and the concurrency id that it shows. The others are 0.
macro_rules! area_words {
    ($cpu:expr, $cid:expr) => {
        [word!(DATA, 0), word!(DATA + 4, $cpu), word!(DATA + 20, 0), word!(DATA + 24, $cid)]
    };
}

/// The kernel's writes, in order: numbers, the words of an area, actions and masks.
const TOLD: [Scene; 4] = [
    &[
        Step::Writes(
            CLONE,
            [NUMBERED_TWICE, 0, DATA + 8, 0, DATA],
            2,
            &[word!(DATA + 8, 2), word!(DATA, 2)],
        ),
        Step::Writes(
            GETCPU,
            [DATA, DATA + 2, 0, 0, 0],
            0,
            &[word!(DATA, 0), word!(DATA + 2, 0)],
        ),
        Step::Writes(GETCPU, [DATA, CODE, 0, 0, 0], EFAULT, &[]),
    ],
    &[
        Step::Put(DATA, u64::MAX),
        Step::Writes(RSEQ, REGISTER, 0, &area_words!(0, CID as u64)),
        Step::Memory(DATA, 0),
        Step::Memory(DATA + 24, CID as u64),
        Step::Writes(RSEQ, UNREGISTER, 0, &area_words!(0xffff_ffff, 0)),
        Step::Memory(DATA, 0xffff_ffff_0000_0000),
    ],
    &[
        Step::PutAll(&[(DATA, CODE), (DATA + 8, 4), (DATA + 16, ALL)]),
        Step::Writes(RT_SIGACTION, [10, DATA, 0, 8, 0], 0, &[]),
        Step::PutAll(&[(DATA, 1), (DATA + 8, 2), (DATA + 16, 3)]),
        Step::Writes(
            RT_SIGACTION,
            [ABOVE + 10, DATA, DATA + 8, 8, 0],
            0,
            &[
                double!(DATA + 8, CODE),
                double!(DATA + 16, 4),
                double!(DATA + 24, ALL),
            ],
        ),
        Step::Writes(
            RT_SIGACTION,
            [10, 0, DATA + 0x40, 8, 0],
            0,
            &[
                double!(DATA + 0x40, 1),
                double!(DATA + 0x48, 2),
                double!(DATA + 0x50, 3),
            ],
        ),
        Step::Writes(
            RT_SIGACTION,
            [11, 0, DATA, 8, 0],
            0,
            &[
                double!(DATA, 0),
                double!(DATA + 8, 0),
                double!(DATA + 16, 0),
            ],
        ),
        Step::Memory(DATA + 0x50, 3),
    ],
    &[
        Step::PutAll(&[(DATA, 0x201), (DATA + 0x10, 0x800), (DATA + 0x18, ALL)]),
        Step::Writes(
            RT_SIGPROCMASK,
            [3, 0, DATA + 8, 8, 0],
            0,
            &[double!(DATA + 8, 0)],
        ),
        Step::Writes(
            RT_SIGPROCMASK,
            [0, DATA, DATA_END - 8, 8, 0],
            0,
            &[double!(DATA_END - 8, 0)],
        ),
        Step::Writes(
            RT_SIGPROCMASK,
            [0, DATA + 0x10, DATA + 8, 8, 0],
            0,
            &[double!(DATA + 8, 0x201)],
        ),
        Step::Writes(
            RT_SIGPROCMASK,
            [1, DATA, DATA + 8, 8, 0],
            0,
            &[double!(DATA + 8, 0xa01)],
        ),
        Step::Writes(
            RT_SIGPROCMASK,
            [u64::MAX, 0, DATA + 8, 8, 0],
            0,
            &[double!(DATA + 8, 0x800)],
        ),
        Step::Writes(RT_SIGPROCMASK, [ABOVE + 2, DATA + 0x18, 0, 8, 0], 0, &[]),
        Step::Writes(
            RT_SIGPROCMASK,
            [1, DATA + 0x10, DATA + 8, 8, 0],
            0,
            &[double!(DATA + 8, MASKABLE)],
        ),
        Step::Writes(
            RT_SIGPROCMASK,
            [2, DATA, DATA, 8, 0],
            0,
            &[double!(DATA, MASKABLE - 0x800)],
        ),
        Step::Writes(
            RT_SIGPROCMASK,
            [0, 0, DATA, 8, 0],
            0,
            &[double!(DATA, 0x201)],
        ),
    ],
];

/// Pages: one that is mapped again is zero; the break moves round holes; bytes outlast a protection.
const PAGES: [Scene; 3] = [
    &[
        Step::Writes(
            MMAP,
            [0, 3 * PAGE, 3, FLAGS, u64::MAX],
            AT_MAPPED,
            &[zeros!(MAPPED, 3 * PAGE)],
        ),
        Step::PutAll(&[(MAPPED, 7), (MAPPED + PAGE, 8), (MAPPED + 2 * PAGE, 9)]),
        Step::Writes(MUNMAP, [MAPPED + PAGE, 1, 0, 0, 0], 0, &[]),
        Step::Answer(1, WRITE, [1, MAPPED + PAGE, 1, 0, 0], EFAULT),
        Step::Writes(
            MMAP,
            [0, PAGE + 1, 3, FLAGS, u64::MAX],
            AT_MAPPED + 0x3000,
            &[zeros!(MAPPED + 3 * PAGE, 2 * PAGE)],
        ),
        Step::Writes(
            MMAP,
            [0, 1, 3, FLAGS, u64::MAX],
            AT_MAPPED + 0x1000,
            &[zeros!(MAPPED + PAGE, PAGE)],
        ),
        Step::Memory(MAPPED, 7),
        Step::Memory(MAPPED + PAGE, 0),
        Step::Memory(MAPPED + 2 * PAGE, 9),
    ],
    &[
        Step::Writes(
            BRK,
            [DATA_END + 3 * PAGE, 0, 0, 0, 0],
            BREAK + 0x3000,
            &[zeros!(DATA_END, 3 * PAGE)],
        ),
        Step::Put(DATA_END + 2 * PAGE, 5),
        Step::Answer(1, MUNMAP, [DATA_END + PAGE, 1, 0, 0, 0], 0),
        Step::Writes(
            BRK,
            [DATA_END + 3 * PAGE + 1, 0, 0, 0, 0],
            BREAK + 0x3001,
            &[zeros!(DATA_END + 3 * PAGE, PAGE)],
        ),
        Step::Writes(BRK, [DATA_END + 4 * PAGE, 0, 0, 0, 0], BREAK + 0x4000, &[]),
        Step::Memory(DATA_END + 2 * PAGE, 5),
        Step::Answer(1, WRITE, [1, DATA_END + PAGE, 1, 0, 0], EFAULT),
        Step::Writes(BRK, [DATA_END, 0, 0, 0, 0], BREAK, &[]),
        Step::Answer(1, WRITE, [1, DATA_END, 1, 0, 0], EFAULT),
    ],
    &[
        Step::Put(DATA, 0x61),
        Step::Writes(MPROTECT, [DATA, PAGE, 0, 0, 0], 0, &[]),
        Step::Answer(1, WRITE, [1, DATA, 1, 0, 0], EFAULT),
        Step::Writes(MPROTECT, [DATA, 1, 1, 0, 0], 0, &[]),
        Step::Memory(DATA, 0x61),
        Step::Writes(MPROTECT, [DATA, 2 * PAGE, 3, 0, 0], 0, &[]),
        Step::Put(DATA + 8, 1),
    ],
];

#[test]
fn the_kernels_writes_are_told_in_order(rt: HostRuntime) -> Result<(), Fail> {
    play(&rt, rt.alloc(), &TOLD)?;
    play(&rt, rt.alloc(), &PAGES)
}
