//! Tests of `hart_state`: worked examples, with values found by hand.

ghost use Rattle.std.specs.Prelude.{◌≢◌};
ghost use Rattle.mach_types.specs.Bytes.{IsAccessSize};
ghost use Rattle.rv_inst.specs.Sizes.{HasAccessSizes};

use hart_state::HartState;
use mach_types::{FLAT_START, FlatMemory, Tid, UserMem, Why};
use rv_inst::{AmoOp, Effect};
use std::alloc::{AllocError, Global};
use std::process::Abort;
use std::test::Fail;

/// A hart and its memory.
#[derive(Drop)]
struct Bench {
    hart: HartState,
    memory: FlatMemory,
}

impl Bench {
    /// A hart on which a thread runs, at pc 0x400, and memory of zeros, the first 48 of which can be written.
    fn new(alloc: Global) -> Result<Bench, AllocError> {
        let memory = FlatMemory::new(48);
        let mut hart = HartState::new(alloc)?;
        hart.running = Some(Tid(1));
        hart.pc = 0x400;
        Ok(Bench { hart, memory })
    }

    /// Executes an instruction that may be executed and doesn't fault.
    fn execute(&mut self, rt: &impl Abort, effect: Effect)
        requires sizes { HasAccessSizes effect }
        requires no_call { effect ≢ Effect.Call }
    {
        assert!(rt; self.hart.exec_gate(Some(&effect), false).is_none());
        assert!(rt; self.hart.fault_of(&self.memory, &effect).is_none());
        self.hart.perform(&mut self.memory, &effect);
    }

    /// Executes a plain store.
    fn store(&mut self, rt: &impl Abort, at: u64, size: u8, value: u64)
        requires { IsAccessSize size }
    {
        self.execute(rt, Effect::Store { at, size, value });
    }

    /// Executes a plain load into x10, which must then have this value.
    fn expect_load(&mut self, rt: &impl Abort, at: u64, size: u8, signed: bool, value: u64)
        requires { IsAccessSize size }
    {
        let rd = 10;
        self.execute(
            rt,
            Effect::Load {
                at,
                size,
                signed,
                rd,
            },
        );
        self.expect_register(rt, rd, value);
    }

    /// Executes an AMO into x5.
    fn amo(&mut self, rt: &impl Abort, op: AmoOp, at: u64, size: u8, value: u64)
        requires { IsAccessSize size }
    {
        let rd = 5;
        self.execute(
            rt,
            Effect::Amo {
                op,
                at,
                size,
                value,
                rd,
            },
        );
    }

    /// Executes an LR into x6.
    fn reserve(&mut self, rt: &impl Abort, at: u64, size: u8)
        requires { IsAccessSize size }
    {
        self.execute(rt, Effect::Lr { at, size, rd: 6 });
    }

    /// Executes an SC into x7, which must then have this value.
    fn expect_sc(&mut self, rt: &impl Abort, at: u64, size: u8, value: u64, answer: u64)
        requires { IsAccessSize size }
    {
        let rd = 7;
        self.execute(
            rt,
            Effect::Sc {
                at,
                size,
                value,
                rd,
            },
        );
        self.expect_register(rt, rd, answer);
    }

    /// Lets the oldest store enter, which must have this value.
    fn expect_drain(&mut self, rt: &impl Abort, value: Option<u64>) {
        if let Some(store) = self.hart.buffer.oldest() {
            assert!(rt; self.memory.writable(store.at, store.size));
        }
        let entered = self.hart.drain(&mut self.memory);
        assert!(rt; entered.map(|store| store.value) == value);
    }

    /// The register must have this value.
    fn expect_register(&self, rt: &impl Abort, number: u8, value: u64) {
        assert!(rt; self.hart.file.get(number) == value, "x{number}");
    }

    /// The reservation must be this.
    fn expect_reserved(&self, rt: &impl Abort, reserved: Option<u64>) {
        assert!(rt; self.hart.reserved == reserved);
    }

    /// The pc must be this.
    fn expect_pc(&self, rt: &impl Abort, pc: u64) {
        assert!(rt; self.hart.pc == pc);
    }

    /// The 8 bytes of memory at an address must be those of this number.
    fn expect_double(&self, rt: &impl Abort, at: u64, value: u64) {
        assert!(rt; self.memory.get(at, 8) == Some(value), "at {at}");
    }

    /// Writes the 8 bytes of memory at an address, which can be written.
    fn write_double(&mut self, rt: &impl Abort, at: u64, value: u64) {
        assert!(rt; self.memory.set(at, 8, value));
    }

    /// The conditions that fail must be these.
    fn expect_gates(&self, rt: &impl Abort, rows: &[Gate]) {
        for (row, effect, faults, why) in rows {
            assert!(rt;
                self.hart.exec_gate(Some(effect), *faults) == *why,
                "row {row}"
            );
        }
    }

    /// The fault must be this.
    fn expect_fault(&self, rt: &impl Abort, effect: &Effect, signal: Option<u8>)
        requires { HasAccessSizes effect.now }
    {
        assert!(rt; self.hart.fault_of(&self.memory, effect) == signal);
    }
}

/// The number of the row, what an instruction does, whether it faults there, and the condition that fails.
type Gate = (u8, Effect, bool, Option<Why>);

/// A plain store of the first byte.
const STORE: Effect = Effect::Store {
    at: FLAT_START,
    size: 1,
    value: 1,
};

/// A plain load of 8 bytes.
const LOAD: Effect = Effect::Load {
    at: FLAT_START,
    size: 8,
    signed: false,
    rd: 1,
};

/// No store waits.
const EMPTY: [Gate; 2] = [(0, Effect::FenceI, true, None), (1, STORE, false, None)];

/// Eight stores wait.
const FULL: [Gate; 8] = [
    (0, Effect::Fence { full: true }, false, Some(Why::Waiting)),
    (1, Effect::Fence { full: false }, false, None),
    (2, Effect::FenceI, false, Some(Why::Waiting)),
    (3, Effect::Call, false, Some(Why::Waiting)),
    (4, LOAD, true, Some(Why::Waiting)),
    (5, STORE, false, Some(Why::FullBuffer)),
    (6, STORE, true, Some(Why::Waiting)),
    (7, LOAD, false, None),
];

/// They wait, and so does the thread, in a barrier; and the same once no thread runs.
const IN_BARRIER: [Gate; 1] = [(0, STORE, true, Some(Why::InBarrier))];

const IDLE: [Gate; 1] = [(0, STORE, true, Some(Why::Idle))];

#[test]
fn gates_come_in_order(rt: HostRuntime) -> Result<(), Fail> {
    let mut bench = Bench::new(rt.alloc())?;
    bench.expect_gates(&rt, &EMPTY);
    for _ in 0..8 {
        bench.store(&rt, FLAT_START, 1, 1);
    }
    assert!(rt; bench.hart.exec_gate(None, true) == Some(Why::Waiting));
    assert!(rt; bench.hart.exec_gate(None, false).is_none());
    bench.expect_gates(&rt, &FULL);
    bench.hart.waits = Some(2);
    bench.expect_gates(&rt, &IN_BARRIER);
    bench.hart.running = None;
    bench.expect_gates(&rt, &IDLE);
    Ok(())
}

/// An access of memory.
enum Access {
    Load,
    Store,
    Amo,
    Reserving,
    Conditional,
}

/// What an instruction of an access does.
fn effect_of(access: &Access, at: u64, size: u8) -> Effect
    requires { IsAccessSize size }
    ensures { HasAccessSizes result }
{
    let (value, rd) = (0, 1);
    match access {
        Access::Load => Effect::Load {
            at,
            size,
            signed: false,
            rd,
        },
        Access::Store => Effect::Store { at, size, value },
        Access::Amo => Effect::Amo {
            op: AmoOp::Add,
            at,
            size,
            value,
            rd,
        },
        Access::Reserving => Effect::Lr { at, size, rd },
        Access::Conditional => Effect::Sc {
            at,
            size,
            value,
            rd,
        },
    }
}

/// An access, its address, how many bytes it has, and the signal of its fault.
const FAULTS: [(Access, u64, u8, Option<u8>); 16] = [
    (Access::Amo, 0x1004, 4, None),
    (Access::Amo, 0x1004, 8, Some(7)),
    (Access::Amo, 0x1031, 4, Some(7)),
    (Access::Amo, 0x1030, 4, Some(11)),
    (Access::Reserving, 0x1004, 8, Some(7)),
    (Access::Reserving, 0x1030, 8, None),
    (Access::Reserving, 0x1400, 8, Some(11)),
    (Access::Conditional, 0x1001, 4, Some(7)),
    (Access::Conditional, 0x1030, 4, Some(11)),
    (Access::Conditional, 0x102c, 4, None),
    (Access::Load, 0x1001, 8, None),
    (Access::Load, 0x13f8, 8, None),
    (Access::Load, 0x13f9, 8, Some(11)),
    (Access::Store, 0x1001, 8, None),
    (Access::Store, 0x1028, 8, None),
    (Access::Store, 0x1029, 8, Some(11)),
];

#[test]
fn faults_of_each_access(rt: HostRuntime) -> Result<(), Fail> {
    let bench = Bench::new(rt.alloc())?;
    for (access, at, size, signal) in &FAULTS {
        assert!(rt; *size == 4 || *size == 8);
        let fault = bench
            .hart
            .fault_of(&bench.memory, &effect_of(access, *at, *size));
        assert!(rt; fault == *signal, "{at:x} {size}");
    }
    bench.expect_fault(&rt, &Effect::Break, Some(5));
    bench.expect_fault(&rt, &Effect::Misaligned, Some(7));
    bench.expect_fault(&rt, &Effect::Call, None);
    Ok(())
}

#[test]
fn waiting_stores_are_seen_and_enter_in_order(rt: HostRuntime) -> Result<(), Fail> {
    let mut bench = Bench::new(rt.alloc())?;
    bench.store(&rt, 0x1002, 4, 0x1122_3344);
    bench.expect_load(&rt, 0x1000, 8, false, 0x0000_1122_3344_0000);
    bench.store(&rt, 0x1003, 1, 0xff);
    bench.expect_load(&rt, 0x1000, 8, false, 0x0000_1122_ff44_0000);
    bench.expect_load(&rt, 0x1003, 1, true, 0xffff_ffff_ffff_ffff);
    bench.expect_load(&rt, 0x1003, 1, false, 0xff);
    bench.expect_double(&rt, 0x1000, 0);
    bench.expect_pc(&rt, 0x418);
    bench.expect_drain(&rt, Some(0x1122_3344));
    bench.expect_double(&rt, 0x1000, 0x0000_1122_3344_0000);
    bench.expect_drain(&rt, Some(0xff));
    bench.expect_double(&rt, 0x1000, 0x0000_1122_ff44_0000);
    bench.expect_drain(&rt, None);
    Ok(())
}

#[test]
fn amos_read_and_write_at_once(rt: HostRuntime) -> Result<(), Fail> {
    let mut bench = Bench::new(rt.alloc())?;
    bench.write_double(&rt, 0x1000, 0xffff_fffe_0000_0000);
    bench.amo(&rt, AmoOp::Add, 0x1004, 4, 3);
    bench.expect_register(&rt, 5, 0xffff_ffff_ffff_fffe);
    // The carry is lost, and the bytes beside the word stay.
    bench.expect_double(&rt, 0x1000, 0x0000_0001_0000_0000);
    bench.expect_double(&rt, 0x1008, 0);
    bench.expect_pc(&rt, 0x404);
    bench.write_double(&rt, 0x1008, 0x8000_0000_0000_0001);
    bench.amo(&rt, AmoOp::Min, 0x1008, 8, 7);
    bench.expect_register(&rt, 5, 0x8000_0000_0000_0001);
    bench.expect_double(&rt, 0x1008, 0x8000_0000_0000_0001);
    bench.amo(&rt, AmoOp::MinU, 0x1008, 8, 7);
    bench.expect_double(&rt, 0x1008, 7);
    Ok(())
}

#[test]
fn an_sc_succeeds_once_where_it_is_reserved(rt: HostRuntime) -> Result<(), Fail> {
    let mut bench = Bench::new(rt.alloc())?;
    bench.write_double(&rt, 0x1008, 0x8000_0000_0000_0000);
    bench.reserve(&rt, 0x100c, 4);
    bench.expect_register(&rt, 6, 0xffff_ffff_8000_0000);
    bench.expect_reserved(&rt, Some(0x1008));
    bench.expect_sc(&rt, 0x1008, 8, 9, 0);
    bench.expect_double(&rt, 0x1008, 9);
    bench.expect_reserved(&rt, None);
    bench.expect_sc(&rt, 0x1008, 8, 10, 1);
    bench.expect_double(&rt, 0x1008, 9);
    bench.reserve(&rt, 0x1008, 8);
    bench.expect_sc(&rt, 0x1010, 4, 9, 1);
    bench.expect_reserved(&rt, None);
    bench.expect_double(&rt, 0x1010, 0);
    Ok(())
}

#[test]
fn a_thread_leaves_and_enters(rt: HostRuntime) -> Result<(), Fail> {
    let mut bench = Bench::new(rt.alloc())?;
    bench.reserve(&rt, 0x1008, 8);
    bench.hart.file.set(3, 9);
    let saved = bench.hart.leave();
    assert!(rt; bench.hart.is_idle());
    bench.expect_reserved(&rt, None);
    bench.expect_register(&rt, 3, 0);
    bench.expect_pc(&rt, 0);
    bench.hart.enter(Tid(2), saved, 5);
    assert!(rt; bench.hart.running == Some(Tid(2)));
    assert!(rt; bench.hart.cid == 5);
    bench.expect_register(&rt, 3, 9);
    bench.expect_pc(&rt, 0x404);
    let _saved = bench.hart.leave();
    assert!(rt; bench.hart.cid == 0);
    Ok(())
}

/// An address, a size, and whether a write of so many bytes there leaves the reservation of 0x1008.
const WRITES: [(u64, u8, bool); 9] = [
    (0x1000, 8, true),
    (0x1007, 1, true),
    (0x1010, 4, true),
    (0x1007, 2, false),
    (0x1004, 8, false),
    (0x1008, 1, false),
    (0x100f, 1, false),
    (0x100c, 8, false),
    (0x100c, 0, true),
];

#[test]
fn a_write_to_the_reserved_bytes_ends_the_reservation(rt: HostRuntime) -> Result<(), Fail> {
    let mut bench = Bench::new(rt.alloc())?;
    for (at, size, stays) in &WRITES {
        bench.hart.reserved = Some(0x1008);
        bench.hart.lose(*at, *size);
        assert!(rt; bench.hart.reserved.is_some() == *stays, "at {at}");
    }
    Ok(())
}
