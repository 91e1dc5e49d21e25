//! The state of one hart, and what an instruction does to it and to memory.

ghost use Rattle.std.specs.Prelude.{◌≡◌, ◌≢◌, ℕ, [], ◌∷◌, ◌++◌, ◌<◌, true, false, Option, Some, None, length, drop, take, slice_get, not, is_some, IfOk, IfSome};
ghost use Rattle.std.specs.Option.{option_map, option_copied};
ghost use Rattle.hart_state.specs.State.{idle_hart, exec_refusal, outcome_on, hart_after, CanEnter, stores, left, entered};
ghost use Rattle.mach_types.specs.Bytes.{IsAccessSize, each_byte, overlay};
ghost use Rattle.mach_types.specs.Registers.{with_register};
ghost use Rattle.mach_types.specs.declared.user_memory.TheConstants.{STORE_BUFFER_CAPACITY};
ghost use Rattle.rv_inst.specs.Execution as execution;
ghost use Rattle.rv_inst.specs.Sizes.{HasAccessSizes};
ghost use Rattle.rv_inst.specs.Words.{sum_64};

use crate::faults::access_fault;
use crate::gate::store_gate;
use crate::reservation::{holds, left_by, reserved_at};
use mach_types::{Regs, Saved, Store, Tid, UserMem, Why};
use rv_exec::{amo_value, finish_load};
use rv_inst::{AmoOp, Effect, asks};
use std::alloc::{AllocError, Global};
use store_buffers::StoreBuffer;

/// One hart: what the thread that runs on it sees, and what the machine keeps for it.
#[derive(Drop)]
pub struct HartState {
    /// The integer registers of the running thread.
    pub file: Regs,
    /// The address of its next instruction.
    pub pc: u64,
    /// The plain stores of the hart that haven't entered memory.
    pub buffer: StoreBuffer,
    /// The thread that runs here.
    pub running: Option<Tid>,
    /// The barrier requests that are pending here, one bit for each hart that began one.
    pub requests: u8,
    /// Whether one of these requests asks that a restartable sequence be begun anew.
    pub restart: bool,
    /// The harts that the thread's barrier waits for, one bit each; None where it waits in no barrier.
    pub waits: Option<u8>,
    /// The address of the aligned 8 bytes that an LR reserved.
    pub reserved: Option<u64>,
    /// How many instructions the hart executed since a thread last began to run on it.
    pub ran: u32,
    /// How many more register-only instructions may follow without a new choice.
    pub credit: u8,
    /// How many events the hart made.
    pub events: u32,
    /// The concurrency id that the running thread holds; 0 on an idle hart.
    pub cid: u8,
}

/// Takes all waiting stores away.
fn forget_stores(buffer: &mut StoreBuffer)
    ensures { buffer.new ≡ [] }
{
    'stores: while let Some(_) = buffer.pop() {}
}

impl HartState {
    /// A hart on which no thread runs, with nothing waiting. Fails only where memory is short.
    pub fn new(alloc: Global) -> Result<HartState, AllocError>
        ensures { IfOk result (λ hart. hart ≡ idle_hart) }
    {
        Ok(HartState {
            file: Regs::new(),
            pc: 0,
            buffer: StoreBuffer::new(alloc)?,
            running: None,
            requests: 0,
            restart: false,
            waits: None,
            reserved: None,
            ran: 0,
            credit: 0,
            events: 0,
            cid: 0,
        })
    }

    /// Makes the hart one on which no thread runs, with nothing waiting, as [`HartState::new`] makes one. It takes no memory.
    pub fn reset(&mut self)
        ensures { self.new ≡ idle_hart }
    {
        forget_stores(&mut self.buffer);
        self.file = Regs::new();
        self.pc = 0;
        self.running = None;
        self.requests = 0;
        self.restart = false;
        self.waits = None;
        self.reserved = None;
        self.ran = 0;
        self.credit = 0;
        self.events = 0;
        self.cid = 0;
    }

    /// Makes the hart one that is as another. It takes no memory.
    pub fn copy_from(&mut self, other: &HartState)
        ensures { self.new ≡ other.now }
    {
        self.buffer.copy_from(&other.buffer);
        self.file = other.file;
        self.pc = other.pc;
        self.running = other.running;
        self.requests = other.requests;
        self.restart = other.restart;
        self.waits = other.waits;
        self.reserved = other.reserved;
        self.ran = other.ran;
        self.credit = other.credit;
        self.events = other.events;
        self.cid = other.cid;
    }

    /// Whether no thread runs on the hart.
    pub fn is_idle(&self) -> bool
        ensures { result ≡ not (is_some self.now.running) }
    {
        self.running.is_none()
    }

    /// Why the hart may not execute an instruction with this effect; None where it may.
    ///
    /// `faults` says that the instruction faults. There is no effect where no instruction was fetched or
    /// decoded.
    pub fn exec_gate(&self, effect: Option<&Effect>, faults: bool) -> Option<Why>
        ensures { result ≡ exec_refusal self.now (option_copied effect.entry) faults }
    {
        if self.running.is_none() {
            return Some(Why::Idle);
        }
        if self.waits.is_some() {
            return Some(Why::InBarrier);
        }
        store_gate(self.buffer.len(), effect, faults)
    }

    /// The signal of the first fault of an instruction that was fetched and decoded, as Linux numbers it;
    /// None where it has no fault.
    pub fn fault_of<M: UserMem>(&self, mem: &M, effect: &Effect) -> Option<u8>
        requires { HasAccessSizes effect.now }
        ensures { result ≡ execution.fault_in (M.byte mem.now) (M.can_write mem.now) effect.now }
    {
        let asked = asks(effect);
        if asked.fault.is_some() {
            return asked.fault;
        }
        access_fault(mem, asked.access?)
    }

    /// Executes an instruction with this effect, but for memory: the registers, the pc, the store buffer and
    /// the reservation of its outcome. Answers the store that it makes at once, which the caller writes: that
    /// of an AMO, and that of an SC that succeeds; None where there is none. A plain store waits.
    #[inline]
    pub fn execute<M: UserMem>(&mut self, mem: &M, effect: &Effect) -> Option<Store>
        requires sizes { HasAccessSizes effect.now }
        requires allowed { exec_refusal self.old (Some effect.now) false ≡ None }
        requires no_fault { execution.fault_in (M.byte mem.now) (M.can_write mem.now) effect.now ≡ None }
        requires no_call { effect.now ≢ Effect.Call }
        ensures hart { self.new ≡ hart_after self.old (outcome_on self.old (M.byte mem.now) effect.now) }
        ensures entered { (outcome_on self.old (M.byte mem.now) effect.now).entered ≡ stores result }
        ensures size { IfSome result (λ s. IsAccessSize s.size) }
        ensures writable { IfSome result (λ s. each_byte (M.can_write mem.now) s.at s.size ≡ true) }
    {
        match *effect {
            Effect::Next { rd, value, pc } => {
                self.file.set(rd, value);
                self.pc = pc;
                None
            }
            Effect::Load {
                at,
                size,
                signed,
                rd,
            } => {
                self.load(mem, at, size, signed, rd);
                None
            }
            Effect::Store { at, size, value } => {
                self.store(Store { at, size, value });
                None
            }
            Effect::Amo {
                op,
                at,
                size,
                value,
                rd,
            } => Some(self.amo(mem, op, Store { at, size, value }, rd)),
            Effect::Lr { at, size, rd } => {
                self.load_reserved(mem, at, size, rd);
                None
            }
            Effect::Sc {
                at,
                size,
                value,
                rd,
            } => self.store_conditional(Store { at, size, value }, rd),
            Effect::Fence { .. } | Effect::FenceI => {
                self.go_on(0, 0);
                None
            }
            Effect::Call | Effect::Break | Effect::Misaligned => unreachable!(),
        }
    }

    /// Executes an instruction with this effect: the registers, the pc, the store buffer, the reservation
    /// and the memory of its outcome.
    pub fn perform<M: UserMem>(&mut self, mem: &mut M, effect: &Effect)
        requires sizes { HasAccessSizes effect.now }
        requires allowed { exec_refusal self.old (Some effect.now) false ≡ None }
        requires no_fault { execution.fault_in (M.byte mem.old) (M.can_write mem.old) effect.now ≡ None }
        requires no_call { effect.now ≢ Effect.Call }
        ensures hart { self.new ≡ hart_after self.old (outcome_on self.old (M.byte mem.old) effect.now) }
        ensures bytes { (a : ℕ) → M.byte mem.new a ≡ option_map
            (overlay (outcome_on self.old (M.byte mem.old) effect.now).entered a) (M.byte mem.old a) }
        ensures permissions { (a : ℕ) → M.can_write mem.new a ≡ M.can_write mem.old a }
        ensures alike { M.IsAlike mem.old mem.new }
    {
        if let Some(store) = self.execute(mem, effect) {
            let _written = mem.set(store.at, store.size, store.value);
        }
    }

    /// Lets the oldest waiting store enter memory and answers it; None exactly where none waits.
    pub fn drain<M: UserMem>(&mut self, mem: &mut M) -> Option<Store>
        requires { CanEnter (M.can_write mem.old) self.old.buffer }
        ensures oldest { result ≡ slice_get self.old.buffer 0 }
        ensures hart { self.new ≡ record self.old { buffer = drop 1 self.old.buffer } }
        ensures bytes { (a : ℕ)
            → M.byte mem.new a ≡ option_map (overlay (take 1 self.old.buffer) a) (M.byte mem.old a) }
        ensures permissions { (a : ℕ) → M.can_write mem.new a ≡ M.can_write mem.old a }
        ensures alike { M.IsAlike mem.old mem.new }
    {
        let store = self.buffer.pop()?;
        let _entered = mem.set(store.at, store.size, store.value);
        Some(store)
    }

    /// Ends the reservation where one of these bytes is in its aligned 8 bytes: another hart or the kernel
    /// wrote them. A write of no bytes ends none.
    pub fn lose(&mut self, at: u64, size: u8)
        ensures { self.new ≡ record self.old { reserved = execution.lost_by at size self.old.reserved } }
    {
        self.lose_run(at, u64::from(size));
    }

    /// The same where so many bytes were written, as when pages are mapped.
    pub fn lose_run(&mut self, at: u64, length: u64)
        ensures { self.new ≡ record self.old { reserved = execution.lost_by at length self.old.reserved } }
    {
        self.reserved = left_by(self.reserved, at, length);
    }

    /// Takes the thread that runs here, if one runs, from the hart, and answers its registers and its pc.
    ///
    /// The hart is then idle, with no reservation and no concurrency id, its registers and its pc 0. What
    /// waits in its buffer stays.
    pub fn leave(&mut self) -> Saved
        ensures file { result ≡ record { file = self.old.file; pc = self.old.pc } }
        ensures hart { self.new ≡ left self.old }
    {
        let saved = Saved {
            file: self.file,
            pc: self.pc,
        };
        self.file = Regs::new();
        self.pc = 0;
        self.running = None;
        self.reserved = None;
        self.cid = 0;
        saved
    }

    /// Lets a thread run on the hart, with these registers and this pc, which holds this concurrency id: it
    /// has no reservation, and executed nothing here so far.
    pub fn enter(&mut self, tid: Tid, saved: Saved, cid: u8)
        ensures { self.new ≡ entered tid saved cid self.old }
    {
        self.file = saved.file;
        self.pc = saved.pc;
        self.running = Some(tid);
        self.reserved = None;
        self.ran = 0;
        self.cid = cid;
    }

    /// Goes on 4 bytes further, with a value in register `rd`.
    fn go_on(&mut self, rd: u8, value: u64)
        ensures { self.new
            ≡ record self.old { file = with_register self.old.file rd value; pc = sum_64 self.old.pc 4 } }
    {
        self.file.set(rd, value);
        self.pc = self.pc.wrapping_add(4);
    }

    /// A plain load: each byte comes from the youngest waiting store that has it, else from memory.
    fn load<M: UserMem>(&mut self, mem: &M, at: u64, size: u8, signed: bool, rd: u8)
        requires { IsAccessSize size }
        ensures { self.new
            ≡ hart_after self.old (outcome_on self.old (M.byte mem.now) (Effect.Load at size signed rd)) }
    {
        let raw = self.buffer.look(mem, at, size).unwrap_or(0);
        self.go_on(rd, finish_load(raw, size, signed));
    }

    /// A plain store waits.
    fn store(&mut self, store: Store)
        requires size { IsAccessSize store.size }
        requires room { length self.old.buffer < STORE_BUFFER_CAPACITY }
        ensures { self.new
            ≡ record self.old { pc = sum_64 self.old.pc 4; buffer = self.old.buffer ++ store ∷ [] } }
    {
        self.buffer.push(store);
        self.pc = self.pc.wrapping_add(4);
    }

    /// An AMO reads memory, and answers the store that it makes at once. `given` has the value of the
    /// register.
    fn amo<M: UserMem>(&mut self, mem: &M, op: AmoOp, given: Store, rd: u8) -> Store
        requires size { IsAccessSize given.size }
        requires empty { self.old.buffer ≡ [] }
        ensures hart { self.new ≡ hart_after self.old
            (outcome_on self.old (M.byte mem.now) (Effect.Amo op given.at given.size given.value rd)) }
        ensures entered { (outcome_on self.old (M.byte mem.now)
            (Effect.Amo op given.at given.size given.value rd)).entered ≡ result ∷ [] }
        ensures at { result.at ≡ given.at }
        ensures size { result.size ≡ given.size }
    {
        let old = mem.get(given.at, given.size).unwrap_or(0);
        self.go_on(rd, finish_load(old, given.size, true));
        Store {
            at: given.at,
            size: given.size,
            value: amo_value(op, given.size, old, given.value),
        }
    }

    /// LR: reads memory, and reserves the aligned 8 bytes round the address.
    fn load_reserved<M: UserMem>(&mut self, mem: &M, at: u64, size: u8, rd: u8)
        requires size { IsAccessSize size }
        requires empty { self.old.buffer ≡ [] }
        ensures { self.new
            ≡ hart_after self.old (outcome_on self.old (M.byte mem.now) (Effect.Lr at size rd)) }
    {
        let raw = mem.get(at, size).unwrap_or(0);
        self.reserved = Some(reserved_at(at));
        self.go_on(rd, finish_load(raw, size, true));
    }

    /// SC: ends the reservation, and answers the store exactly where its address was reserved.
    fn store_conditional(&mut self, store: Store, rd: u8) -> Option<Store>
        ensures hart { (byte : ℕ → Option ℕ) → self.new
            ≡ hart_after self.old (outcome_on self.old byte (Effect.Sc store.at store.size store.value rd)) }
        ensures entered { (byte : ℕ → Option ℕ)
            → (outcome_on self.old byte (Effect.Sc store.at store.size store.value rd)).entered
            ≡ stores result }
        ensures same { IfSome result (λ made. made ≡ store) }
    {
        let succeeds = holds(self.reserved, store.at);
        self.reserved = None;
        if succeeds {
            self.go_on(rd, 0);
            Some(store)
        } else {
            self.go_on(rd, 1);
            None
        }
    }
}
