//! Scenes: what threads of a process do, step by step, and what must come of it.

use crate::calls::bench::{Bench, Row};
use mach_types::{Area, ThreadState, Tid, Write};
use std::alloc::Global;
use std::process::Abort;
use std::test::Fail;
use sys_calls::CallEnd;

/// A step of a scene.
pub enum Step {
    /// 8 bytes are put into memory: an address and a number.
    Put(u64, u64),
    /// The same, at each of these addresses.
    PutAll(&'static [(u64, u64)]),
    /// Thread 1 makes calls of a number, and is answered as the rows say.
    Answers(u64, &'static [Row]),
    /// A thread makes a call of a number, and is answered so.
    Answer(u32, u64, [u64; 5], i64),
    /// Thread 1 makes a call of a number, is answered so, and these are the kernel's writes.
    Writes(u64, [u64; 5], i64, &'static [Write]),
    /// A thread makes a call of a number, which ends so.
    End(u32, u64, [u64; 5], CallEnd),
    /// A ready thread begins to run on hart 1, and exits at once.
    Exit(u32),
    /// A ready thread begins to run on a hart.
    Run(u8, u32),
    /// A ready thread begins to run on a hart, and finds this in a0.
    Wakes(u8, u32, u64),
    /// The 8 bytes at an address must be these.
    Memory(u64, u64),
    /// These bytes must have been written to the console.
    Console(&'static [u8]),
    /// The first ready threads that may run on harts 0 and 1 must be these.
    First([Option<Tid>; 2]),
    /// The signal that comes next to a thread must be this one; None of one that isn't live.
    Next(u32, Option<u8>),
    /// A thread must be in this state; None of one that isn't live.
    State(u32, Option<ThreadState>),
    /// A thread must have this area registered.
    HasArea(u32, Option<Area>),
}

/// The steps of a process from its start on.
pub type Scene = &'static [Step];

/// The scenes must go as they say, each of a process of its own.
pub fn play(rt: &impl Abort, alloc: Global, scenes: &[Scene]) -> Result<(), Fail> {
    for scene in scenes {
        let mut bench = Bench::new(rt, alloc)?;
        go(rt, &mut bench, scene);
    }
    Ok(())
}

/// The steps must go as they say.
pub fn go(rt: &impl Abort, bench: &mut Bench, steps: &[Step]) {
    for step in steps {
        take(rt, bench, step);
    }
}

/// A step must go as it says.
fn take(rt: &impl Abort, bench: &mut Bench, step: &Step) {
    match step {
        Step::Put(at, value) => bench.put(rt, *at, *value),
        Step::PutAll(rows) => bench.put_all(rt, rows),
        Step::Answers(number, rows) => bench.expect_answers(rt, 1, *number, rows),
        Step::Answer(tid, number, arguments, answer) => {
            bench.expect_end(rt, *tid, *number, *arguments, CallEnd::Return(*answer));
        }
        Step::Writes(number, arguments, answer, writes) => {
            bench.expect_writes(rt, *number, *arguments, *answer, writes);
        }
        Step::End(tid, number, arguments, end) => {
            bench.expect_end(rt, *tid, *number, *arguments, *end);
        }
        Step::Exit(tid) => bench.exit(rt, *tid),
        Step::Run(hart, tid) => {
            assert!(rt; *hart < 2);
            let _saved = bench.begin(rt, *hart, *tid);
        }
        Step::Wakes(hart, tid, a0) => {
            assert!(rt; *hart < 2);
            let saved = bench.begin(rt, *hart, *tid);
            assert!(rt; saved.file.get(10) == *a0);
        }
        seen => look(rt, bench, seen),
    }
}

/// What a step says of the process must hold.
fn look(rt: &impl Abort, bench: &Bench, step: &Step) {
    match step {
        Step::Memory(at, value) => bench.expect_memory(rt, *at, *value),
        Step::Console(bytes) => bench.expect_console(rt, bytes),
        Step::First(first) => bench.expect_first(rt, first),
        Step::Next(tid, next) => bench.expect_next(rt, *tid, *next),
        Step::State(tid, state) => bench.expect_state(rt, *tid, *state),
        Step::HasArea(tid, area) => bench.expect_area(rt, *tid, *area),
        _ => panic!(rt; "no step that only looks"),
    }
}
