//! What is read of a machine: each of its harts, the kernel's tables, and what it would answer to a choice.

ghost use Rattle.std.specs.Prelude.{◌≡◌, ◌<◌, ℕ, [], None, Ok, Err, IfSome, is_none};
ghost use Rattle.mach_types.specs.Bytes.{IsAccessSize, word_at};
ghost use Rattle.mach_types.specs.Kernel.Signals as signals;
ghost use Rattle.mach_types.specs.{Kernel.Threads.is_live, declared.events.Entry.Entry};
ghost use Rattle.scheduler.specs.Holding as scheduling;
ghost use Rattle.sys_calls.specs.Made.{AreSaved};
ghost use Rattle.sys_calls.specs.Registered.{areas_by_number};
ghost use Rattle.block_model.specs.Acts.{named_at};
ghost use Rattle.block_model.specs.Choosing.{credit_at};
ghost use Rattle.block_model.specs.Deciding.{decide, history};
ghost use Rattle.block_model.specs.Events.{done_of};
ghost use Rattle.block_model.specs.Events.Exec.{refusal_exec};
ghost use Rattle.block_model.specs.Here.{memory, runs, view};
ghost use Rattle.block_model.specs.History.{events, file, here_in_history, kernel, ran};
ghost use Rattle.block_model.specs.Instruction.{next_effect};
ghost use Rattle.block_model.specs.declared.refusals.Refused.{Refused};
ghost use Rattle.block_model.specs.Sights.{effect_here, fault_here, is_deliverable_on, sight_in};
ghost use Rattle.rv_inst.specs.Sizes.{HasAccessSizes};
ghost use Rattle.process.specs.Foresight.{foreseen_writes};
ghost use Rattle.process.specs.Harts.{file_of, hart_in};
ghost use Rattle.process.specs.Sequences.{area_on, looked_at_on};
ghost use Rattle.machine_core.specs.Free.{goes_freely};

use crate::machine::Machine;
use block_model::Refused;
use hart_state::HartState;
use mach_types::{Area, Choice, Entry, Hart, Named, Outcome, Sight, UserMem};
use process::{
    KernelWrites, Next, effect_at, effect_of_next, fault_of_next, is_all_taken, is_free, is_local,
    is_open, next_of,
};
use rseq_area::Lookups;
use rv_inst::Effect;
use sys_calls::Kernel;

impl Machine {
    /// How many harts the machine has.
    pub fn harts(&self) -> u8
        ensures { result ≡ self.now.setting.limits.harts }
    {
        self.limits.harts
    }

    /// The state of a hart. An idle hart's registers and pc are 0. Its credit is that of the choices of `run`, and 0 where an
    /// entry of the log isn't one of these.
    pub fn hart(&self, hart: Hart) -> &HartState
        requires { hart.0 < self.now.setting.limits.harts }
        ensures { result.now
            ≡ hart_in (here_in_history self.now.setting (history self.now.setting self.now.log) hart.0)
            (ran hart.0 (history self.now.setting self.now.log))
            (events hart.0 (history self.now.setting self.now.log))
            (credit_at self.now.setting self.now.seed hart.0 (history self.now.setting self.now.log)) }
    {
        &self.parts.harts[hart.0 as usize]
    }

    /// The little-endian number of `size` bytes from `at` on, as a hart sees them: each byte is that of its
    /// youngest waiting store that has it, else memory's. None exactly where one of them can't be read.
    pub fn view(&self, hart: Hart, at: u64, size: u8) -> Option<u64>
        requires hart { hart.0 < self.now.setting.limits.harts }
        requires size { IsAccessSize size }
        ensures { result ≡ word_at
            (view (here_in_history self.now.setting (history self.now.setting self.now.log) hart.0)) at size }
    {
        self.hart(hart).buffer.look(&self.parts.pages, at, size)
    }

    /// The little-endian number of `size` bytes from `at` on in memory, whatever stores wait. None exactly where one
    /// of them can't be read.
    pub fn memory(&self, at: u64, size: u8) -> Option<u64>
        requires { IsAccessSize size }
        ensures { (h : ℕ) → result ≡ word_at
            (memory (here_in_history self.now.setting (history self.now.setting self.now.log) h)) at size }
    {
        self.parts.pages.get(at, size)
    }

    /// What the next instruction of a hart's thread asks for. None exactly where the hart is idle, where nothing
    /// can be executed at the pc, or where the word there is no instruction.
    pub fn next_effect(&self, hart: Hart) -> Option<Effect>
        requires { hart.0 < self.now.setting.limits.harts }
        ensures { result
            ≡ effect_here (here_in_history self.now.setting (history self.now.setting self.now.log) hart.0) }
    {
        let state = self.hart(hart);
        if state.is_idle() {
            None
        } else {
            effect_of_next(&self.code, state)
        }
    }

    /// The signal of the fault that the next instruction of a hart's thread makes, as Linux numbers it. None exactly where the hart is
    /// idle, or it makes none.
    pub fn next_fault(&self, hart: Hart) -> Option<u8>
        requires { hart.0 < self.now.setting.limits.harts }
        ensures { result ≡ fault_here (here_in_history self.now.setting (history self.now.setting self.now.log) hart.0) }
    {
        self.next(hart).fault
    }

    /// The next instruction of a hart's thread: what it asks for ([`Machine::next_effect`]), and the signal of its fault
    /// ([`Machine::next_fault`]), by one look.
    pub fn next(&self, hart: Hart) -> Next
        requires { hart.0 < self.now.setting.limits.harts }
        ensures effect { result.effect
            ≡ effect_here (here_in_history self.now.setting (history self.now.setting self.now.log) hart.0) }
        ensures fault { result.fault
            ≡ fault_here (here_in_history self.now.setting (history self.now.setting self.now.log) hart.0) }
    {
        let state = self.hart(hart);
        if state.is_idle() {
            Next {
                effect: None,
                fault: None,
            }
        } else {
            next_of(&self.code, &self.parts.pages, state)
        }
    }

    /// The area that is registered for the thread on a hart (rseq(2)). None exactly where the hart is idle, or its thread has none.
    pub fn area(&self, hart: Hart) -> Option<Area>
        requires { hart.0 < self.now.setting.limits.harts }
        ensures { result
            ≡ area_on (here_in_history self.now.setting (history self.now.setting self.now.log) hart.0) }
    {
        self.parts.area(hart)
    }

    /// What the area of a hart's thread names at its pc, as the hart sees memory (rseq(2)). Nothing where it has no area.
    pub fn named(&self, hart: Hart) -> Named
        requires { hart.0 < self.now.setting.limits.harts }
        ensures { result ≡ named_at self.now.setting hart.0 (history self.now.setting self.now.log) }
    {
        self.parts.named(hart)
    }

    /// At which bytes the check of the area of a hart's thread looks, as the hart sees memory (rseq(2)). None exactly where the hart is
    /// idle, or its thread has no area.
    pub fn looked_at(&self, hart: Hart) -> Option<Lookups>
        requires { hart.0 < self.now.setting.limits.harts }
        ensures { result ≡ looked_at_on (here_in_history self.now.setting (history self.now.setting self.now.log) hart.0) }
    {
        self.parts.looked_at(hart)
    }

    /// Whether a signal can be delivered to the thread on a hart (signal(7)). No signal can where the hart is idle.
    #[inline(always)]
    pub fn has_signal(&self, hart: Hart) -> bool
        requires { hart.0 < self.now.setting.limits.harts }
        ensures { result ≡ is_deliverable_on
            (here_in_history self.now.setting (history self.now.setting self.now.log) hart.0)
            (runs (here_in_history self.now.setting (history self.now.setting self.now.log) hart.0)) }
    {
        self.parts.deliverable(hart).is_some()
    }

    /// Whether the thread on a hart may execute its next instruction, and that touches registers and the pc alone and makes no fault:
    /// `exec_enabled` and `local` of what a scheduler sees, for whom sees nothing else.
    pub(crate) fn goes_freely(&self, hart: Hart) -> bool
        requires { hart.0 < self.now.setting.limits.harts }
        ensures { result
            ≡ goes_freely (here_in_history self.now.setting (history self.now.setting self.now.log) hart.0) }
    {
        let state = self.hart(hart);
        is_free(state, effect_of_next(&self.code, state).as_ref())
    }

    /// Whether the thread on a hart may execute its next instruction: `exec_enabled` of what a scheduler sees
    /// ([`Machine::sight`]), for whom sees nothing else.
    #[inline(never)]
    pub fn may_execute(&self, hart: Hart) -> bool
        requires { hart.0 < self.now.setting.limits.harts }
        ensures { result ≡ is_none
            (refusal_exec (here_in_history self.now.setting (history self.now.setting self.now.log) hart.0)) }
    {
        let state = self.hart(hart);
        self.is_enabled(hart, state, effect_at(&self.code, &state.file, state.pc))
    }

    /// The same, where this is the state of the hart, and what the instruction at its pc asks for.
    #[inline]
    fn is_enabled(&self, hart: Hart, state: &HartState, effect: Option<Effect>) -> bool
        requires hart { hart.0 < self.now.setting.limits.harts }
        requires state { state.now
            ≡ hart_in (here_in_history self.now.setting (history self.now.setting self.now.log) hart.0)
            (ran hart.0 (history self.now.setting self.now.log))
            (events hart.0 (history self.now.setting self.now.log))
            (credit_at self.now.setting self.now.seed hart.0 (history self.now.setting self.now.log)) }
        requires effect { effect ≡ next_effect self.now.setting.program.pages (file_of state.now) }
        requires sizes { IfSome effect HasAccessSizes }
        ensures { result ≡ is_none
            (refusal_exec (here_in_history self.now.setting (history self.now.setting self.now.log) hart.0)) }
    {
        if is_open(state, effect.as_ref()) {
            return true;
        }
        let fault = fault_of_next(&self.code, &self.parts.pages, state, effect.as_ref());
        self.parts
            .exec_gate(hart, &Next { effect, fault })
            .is_none()
    }

    /// What a scheduler sees of a hart.
    pub fn sight(&self, hart: Hart) -> Sight
        requires { hart.0 < self.now.setting.limits.harts }
        ensures { result
            ≡ sight_in (here_in_history self.now.setting (history self.now.setting self.now.log) hart.0)
            (ran hart.0 (history self.now.setting self.now.log))
            (credit_at self.now.setting self.now.seed hart.0 (history self.now.setting self.now.log)) }
    {
        let state = self.hart(hart);
        let effect = effect_at(&self.code, &state.file, state.pc);
        Sight {
            idle: state.is_idle(),
            first_ready: self.parts.kernel.ready.first_for(hart),
            in_barrier: state.waits.is_some(),
            all_taken: is_all_taken(state),
            requested: state.requests != 0,
            stores: state.buffer.len(),
            deliverable: self.parts.deliverable(hart).is_some(),
            exec_enabled: self.is_enabled(hart, state, effect),
            local: !state.is_idle() && is_local(effect.as_ref()),
            ran: state.ran,
            credit: state.credit,
        }
    }
    /// The kernel's tables: the threads, each that doesn't run with the file in which it goes on, the signals, the ready list with the
    /// affinities, the areas, the registrations for barriers, the console and the state of the generator of random bytes. The threads
    /// that have signals and affinities are those that are live.
    pub fn kernel(&self) -> &Kernel
        ensures threads { result.now.threads.threads
            ≡ (kernel self.now.setting (history self.now.setting self.now.log)).threads }
        ensures saved { AreSaved
            (λ t. file self.now.setting t (history self.now.setting self.now.log)) result.now.threads }
        ensures signals { result.now.signals
            ≡ (kernel self.now.setting (history self.now.setting self.now.log)).signals }
        ensures signals_held { (t : ℕ)
            → signals.is_held t result.now.signals ≡ is_live t result.now.threads.threads }
        ensures scheduling { result.now.ready
            ≡ (kernel self.now.setting (history self.now.setting self.now.log)).scheduling }
        ensures scheduling_held { (t : ℕ)
            → scheduling.is_held t result.now.ready ≡ is_live t result.now.threads.threads }
        ensures areas { areas_by_number result.now.areas.items
            ≡ (kernel self.now.setting (history self.now.setting self.now.log)).areas }
        ensures registered { result.now.registered
            ≡ (kernel self.now.setting (history self.now.setting self.now.log)).barriers }
        ensures console { result.now.console
            ≡ (kernel self.now.setting (history self.now.setting self.now.log)).console }
        ensures random { result.now.random
            ≡ (kernel self.now.setting (history self.now.setting self.now.log)).random }
    {
        &self.parts.kernel
    }

    /// What [`Machine::step`] would answer to this choice: the entry that is allowed at this place of the log, or the first refusal
    /// that is due. Nothing changes.
    pub fn answer(&self, hart: Hart, choice: Choice) -> Result<Entry, Refused>
        ensures { result ≡ decide self.now.setting (history self.now.setting self.now.log) hart.0 choice }
    {
        if let Some(refused) = self.common_refusal(hart) {
            return Err(refused);
        }
        match self.parts.answer(&self.code, hart, choice) {
            Ok(entry) => Ok(entry),
            Err(why) => Err(Refused::NotEnabled(why)),
        }
    }

    /// What the interruption of a thread (rseq(2)) would come to by the event of this choice. None where the choice is refused at this
    /// place of the log, and where its event interrupts no thread. Nothing changes.
    pub fn foreseen(&self, hart: Hart, choice: Choice) -> Option<Outcome>
        ensures allowed { (e : Entry)
            → decide self.now.setting (history self.now.setting self.now.log) hart.0 choice ≡ Ok e
            → result ≡ (done_of choice
            (here_in_history self.now.setting (history self.now.setting self.now.log) hart.0)).interrupted }
        ensures refused { (why : Refused)
            → decide self.now.setting (history self.now.setting self.now.log) hart.0 choice ≡ Err why
            → result ≡ None }
    {
        match self.answer(hart, choice) {
            Ok(_) => self.parts.foreseen(hart, choice),
            Err(_) => None,
        }
    }

    /// The writes to memory that the kernel would make by the event of this choice, in order: what an interruption writes (rseq(2)), the
    /// words of the area of a thread that begins to run, and the frame of a handler (sigaction(2)). None where the choice is refused at
    /// this place of the log, and by an `exec` or a `drain`: what a call writes is answered by [`Machine::step_call`]. Nothing changes.
    pub fn foreseen_writes(&self, hart: Hart, choice: Choice) -> KernelWrites
        ensures allowed { (e : Entry)
            → decide self.now.setting (history self.now.setting self.now.log) hart.0 choice ≡ Ok e
            → result.items ≡ foreseen_writes choice
            (here_in_history self.now.setting (history self.now.setting self.now.log) hart.0) }
        ensures refused { (why : Refused)
            → decide self.now.setting (history self.now.setting self.now.log) hart.0 choice ≡ Err why
            → result.items ≡ [] }
    {
        match self.answer(hart, choice) {
            Ok(_) => self.parts.foreseen_writes(hart, choice),
            Err(_) => KernelWrites::new(),
        }
    }
}
