//! Calls after which a thread goes on with other registers: a handler that returns, and a barrier that
//! begins.

use crate::calls::bench::{Bench, CODE, DATA, DATA_END, Row};
use crate::calls::words::{
    ABOVE, ALL, CLONE, EPERM, MASKABLE, MEMBARRIER, MPROTECT, RT_SIGPROCMASK, RT_SIGRETURN, THREAD,
    TKILL,
};
use mach_types::signals::SIGSEGV;
use mach_types::{End, Regs, Saved};
use std::process::Abort;
use std::test::Fail;
use sys_calls::CallEnd;

/// A thread whose handler returns with this stack pointer.
fn returning(sp: u64) -> Saved {
    let mut file = Regs::new();
    file.set(2, sp);
    file.set(10, 77);
    file.set(17, RT_SIGRETURN);
    Saved { file, pc: CODE }
}

/// A thread that goes on at a pc, with its number in each register.
fn framed(pc: u64) -> Saved {
    let mut file = Regs::new();
    for register in 1..32 {
        file.set(register, u64::from(register));
    }
    Saved { file, pc }
}

/// A frame in memory: the pc, and in each register its number, and a mask.
fn put_frame(rt: &impl Abort, bench: &mut Bench, at: u64, pc: u64, mask: u64) {
    bench.put(rt, at, pc);
    for register in 1..32 {
        bench.put(rt, at.wrapping_add(8 * register), register);
    }
    bench.put(rt, at.wrapping_add(256), mask);
}

/// Where a frame stands, its pc and its mask, and the signals that are then masked.
const FRAMES: [(u64, u64, u64, u64); 3] = [
    (DATA, CODE + 4, ALL, MASKABLE),
    (DATA_END - 272, 1, 0x200, 0x200),
    (DATA + 9, ALL, 0, 0),
];

/// A handler must return to what its frame says.
fn expect_return(rt: &impl Abort, bench: &mut Bench, sp: u64, pc: u64) {
    let mut saved = returning(sp);
    let called = bench.call_with(rt, 1, &mut saved);
    assert!(rt; called.end == CallEnd::Resume, "{sp:x}");
    assert!(rt; called.written.is_empty(), "{sp:x}");
    assert!(rt; saved == framed(pc), "{sp:x}");
}

#[test]
fn a_handler_returns(rt: HostRuntime) -> Result<(), Fail> {
    let mut bench = Bench::new(&rt, rt.alloc())?;
    for (sp, pc, mask, masked) in &FRAMES {
        put_frame(&rt, &mut bench, *sp, *pc, *mask);
        expect_return(&rt, &mut bench, *sp, *pc);
        bench.expect_answers(&rt, 1, RT_SIGPROCMASK, &[([0, 0, DATA + 0x200, 8, 0], 0)]);
        bench.expect_memory(&rt, DATA + 0x200, *masked);
    }
    bench.expect_answers(&rt, 1, TKILL, &[([1, 10, 0, 0, 0], 0)]);
    put_frame(&rt, &mut bench, DATA, CODE, 0x800);
    let called = bench.call_with(&rt, 1, &mut returning(DATA));
    assert!(rt; called.end == CallEnd::Resume);
    bench.expect_next(&rt, 1, Some(10));
    Ok(())
}

/// Where no frame can be read, since page [`DATA`] + 4096 can't.
const NO_FRAMES: [u64; 6] = [
    0,
    DATA + 4096 - 264,
    DATA_END - 271,
    DATA_END,
    u64::MAX,
    u64::MAX - 271,
];

#[test]
fn a_frame_that_cannot_be_read(rt: HostRuntime) -> Result<(), Fail> {
    let mut bench = Bench::new(&rt, rt.alloc())?;
    bench.expect_answers(&rt, 1, MPROTECT, &[([DATA + 4096, 4096, 0, 0, 0], 0)]);
    for sp in &NO_FRAMES {
        let mut saved = returning(*sp);
        let called = bench.call_with(&rt, 1, &mut saved);
        assert!(rt;
            called.end == CallEnd::ProcessEnd(End::Killed(SIGSEGV)),
            "{sp:x}"
        );
        assert!(rt; called.written.is_empty(), "{sp:x}");
        assert!(rt; saved == returning(*sp), "{sp:x}");
    }
    Ok(())
}

/// A processor of -1, which isn't one.
const NO_CPU: u64 = 0xFFFF_FFFF;

/// A thread, what it asks for, and the barrier that begins: its harts, and whether sequences are begun anew.
type Begun = (u32, [u64; 3], u8, bool);

/// Barriers of threads 1 and 2, which run on harts 0 and 1, where the process is registered for all.
const BEGUN: [Begun; 12] = [
    (1, [1, 0, 0], 2, false),
    (2, [1, 0, 0], 1, false),
    (1, [2, 0, 0], 2, false),
    (1, [8, 0, 0], 2, false),
    (2, [8, 0, 0], 1, false),
    (1, [8, 0, 99], 2, false),
    (1, [128, 0, 0], 2, true),
    (1, [128, 1, 1], 2, true),
    (2, [128, 1, 0], 1, true),
    (1, [128, 1, NO_CPU], 2, true),
    (2, [128, 1, u64::MAX], 1, true),
    (1, [ABOVE + 128, ABOVE + 1, ABOVE + 1], 2, true),
];

/// A call of membarrier must begin a barrier, and a0 stays while the pc goes on.
fn expect_begun(rt: &impl Abort, bench: &mut Bench, begun: &Begun) {
    let (tid, [cmd, flags, cpu], targets, restart) = *begun;
    let mut file = Regs::new();
    file.set(17, MEMBARRIER);
    file.set(10, cmd);
    file.set(11, flags);
    file.set(12, cpu);
    let mut saved = Saved { file, pc: CODE };
    let called = bench.call_with(rt, tid, &mut saved);
    let end = CallEnd::Barrier { targets, restart };
    assert!(rt; called.end == end, "{tid} {cmd} {flags} {cpu}");
    assert!(rt; called.written.is_empty());
    assert!(rt; saved.pc == CODE + 4);
    assert!(rt; saved.file == file);
}

/// Commands of a process that isn't registered for them, and those that register it.
const UNREGISTERED: [Row; 3] = [
    ([2, 0, 0, 0, 0], 0),
    ([8, 0, 0, 0, 0], EPERM),
    ([128, 1, 1, 0, 0], EPERM),
];

const REGISTERS: [Row; 3] = [
    ([4, 0, 0, 0, 0], 0),
    ([16, 0, 0, 0, 0], 0),
    ([256, 0, 0, 0, 0], 0),
];

/// Commands of thread 1 that no other hart has to do with.
const ABOUT_ITSELF: [Row; 2] = [([128, 1, 0, 0, 0], 0), ([128, 1, 2, 0, 0], 0)];

#[test]
fn barriers_are_about_the_other_harts(rt: HostRuntime) -> Result<(), Fail> {
    let mut bench = Bench::new(&rt, rt.alloc())?;
    bench.expect_answers(&rt, 1, CLONE, &[([THREAD, 0, 0, 0, 0], 2)]);
    let _started = bench.begin(&rt, 1, 2);
    bench.expect_answers(&rt, 1, MEMBARRIER, &UNREGISTERED);
    bench.expect_answers(&rt, 2, MEMBARRIER, &REGISTERS);
    for begun in &BEGUN {
        expect_begun(&rt, &mut bench, begun);
    }
    bench.expect_answers(&rt, 1, MEMBARRIER, &ABOUT_ITSELF);
    Ok(())
}
