//! The machine: boot, one event, and what is read of it.

ghost use Rattle.std.specs.Prelude.{◌≡◌, ◌<◌, ◌≤◌, ◌++◌, [], ◌∷◌, false, None, Some, Ok, Err, IfOk, IfNone, IfSome, OnErr, OnOk, vec_len, vec_capacity};
ghost use Rattle.mach_types.specs.Events.{choice_of};
ghost use Rattle.mach_types.specs.Limits.{InRange};
ghost use Rattle.mach_types.specs.declared.events.Choice.{Choice};
ghost use Rattle.elf_load.specs.Images.{IsBootable};
ghost use Rattle.elf_load.specs.Start.{program_of};
ghost use Rattle.block_model.specs.Setting.{setting_of as setting_by};
ghost use Rattle.block_model.specs.Choosing.{has_ended};
ghost use Rattle.block_model.specs.Events.{done_of};
ghost use Rattle.block_model.specs.History.{console as console_bytes, here_in_history};
ghost use Rattle.block_model.specs.Sights.{effect_here, fault_here};
ghost use Rattle.block_model.specs.Deciding.{history, decide, end_of};
ghost use Rattle.block_model.specs.Run.{IsBlockRun};
ghost use Rattle.mach_types.specs.declared.events.Entry.{Entry};
ghost use Rattle.rv_inst.specs.declared.effects.Effect.{Effect};

mod free_events;
mod local_stretches;
mod on_credit;
mod readers;
mod run_choices;

use crate::credits::follow_seen;
use block_model::Refused;
use chooser::Chooser;
use elf_load::Image;
use mach_types::{Choice, End, Entry, Hart, Limits, Why};
use process::{Code, Parts, Written};
use std::alloc::{AllocError, Global};
use std::marker::Model;

/// A loaded program, memory, the harts, the kernel's tables, and the log of what happened.
#[derive(Drop)]
pub struct Machine {
    code: Code,
    entry: u64,
    phdr: u64,
    phnum: u16,
    break_at: u64,
    limits: Limits,
    seed: u64,
    parts: Parts,
    log: Vec<Entry>,
    chooser: Chooser,
    chosen: bool,
}

impl Model for Machine {
    ghost use Rattle.block_model.specs.Setting.{Seen};

    ghost Value = { Seen };

    ghost use Rattle.machine_core.specs.Machines.{seen, IsMachine};

    ghost view = { seen };

    ghost invariant = { IsMachine };
}

/// Appends an entry where there is room.
pub(crate) fn append(log: &mut Vec<Entry>, entry: Entry)
    requires { vec_len log.old < vec_capacity log.old }
    ensures items { log.new.items ≡ log.old.items ++ entry ∷ [] }
    ensures capacity { vec_capacity log.old ≤ vec_capacity log.new }
{
    log.push_reserved(entry);
}

impl Machine {
    /// A machine that has done nothing yet, over a copy of a loaded image. All memory is taken here.
    pub fn boot(
        alloc: Global,
        image: &Image,
        limits: Limits,
        seed: u64,
    ) -> Result<Machine, AllocError>
        requires image { IsBootable limits.frames image.now }
        requires limits { InRange limits }
        ensures { IfOk result (λ m. m
            ≡ record { setting = setting_by image.now limits; seed = seed; log = [] }) }
    {
        let code = Code::new(alloc, &image.pages)?;
        let parts = Parts::boot(alloc, image, limits)?;
        let log = Vec::with_capacity(alloc, limits.steps as usize)?;
        let chooser = Chooser::new(seed);
        Ok(Machine {
            code,
            entry: image.entry,
            phdr: image.phdr,
            phnum: image.phnum,
            break_at: image.break_at,
            limits,
            seed,
            parts,
            log,
            chooser,
            chosen: true,
        })
    }

    /// Begins anew, over the image that the machine was booted with: it is then as [`Machine::boot`] makes
    /// it, with this seed. It costs time in what is mapped and was written, and in the pages of the image.
    ///
    /// Fails only where memory is short; then nothing changes. A machine that has as many frames as its
    /// limits name takes no memory.
    pub fn reset(&mut self, alloc: Global, image: &Image, seed: u64) -> Result<(), AllocError>
        requires image { IsBootable self.old.setting.limits.frames image.now }
        requires program { self.old.setting.program ≡ program_of image.now }
        ensures ok { OnOk result
            (self.new ≡ record { setting = self.old.setting; seed = seed; log = [] }) }
        ensures err { OnErr result (self.new ≡ self.old) }
    {
        if self.parts.pages.frames() != self.limits.frames {
            *self = Machine::boot(alloc, image, self.limits, seed)?;
            return Ok(());
        }
        self.parts.reset(image, self.limits);
        self.log.clear();
        self.seed = seed;
        self.chooser = Chooser::new(seed);
        self.chosen = true;
        Ok(())
    }

    /// The log so far, the oldest entry first.
    pub fn log(&self) -> &[Entry]
        ensures { result.now ≡ self.now.log }
    {
        &self.log
    }

    /// The bytes that the program wrote to its console.
    pub fn console(&self) -> &[u8]
        ensures { result.now ≡ console_bytes self.now.setting (history self.now.setting self.now.log) }
    {
        self.parts.kernel.console.bytes()
    }

    /// How the run ends, if it stops here.
    pub fn end(&self) -> End
        ensures { result ≡ end_of self.now.setting (history self.now.setting self.now.log) }
    {
        match self.parts.ended {
            Some(end) => end,
            None if self.log.len() >= self.limits.steps as usize => End::Limit,
            None => End::Unended,
        }
    }

    /// The refusal of every choice of a hart: the run has ended, or the log is full, or the machine hasn't the hart. None where
    /// the choice decides.
    #[inline(always)]
    fn common_refusal(&self, hart: Hart) -> Option<Refused>
        ensures barred { IfSome result (λ why. (c : Choice)
            → decide self.now.setting (history self.now.setting self.now.log) hart.0 c ≡ Err why) }
        ensures goes { IfNone result (has_ended self.now.setting (history self.now.setting self.now.log)
            ≡ false) }
        ensures hart { IfNone result (hart.0 < self.now.setting.limits.harts) }
        ensures block_run { IsBlockRun self.now.setting self.now.log }
    {
        if let Some(end) = self.parts.ended {
            return Some(Refused::Ended(end));
        }
        if self.log.len() >= self.limits.steps as usize {
            return Some(Refused::Full);
        }
        if hart.0 >= self.limits.harts {
            return Some(Refused::NotEnabled(Why::NoHart));
        }
        None
    }

    /// One event of a hart: exactly the entry that is allowed at this place of the log, or the first
    /// refusal that is due. A refused step changes nothing.
    #[inline(always)]
    pub fn step(&mut self, hart: Hart, choice: Choice) -> Result<Entry, Refused>
        ensures answer { result
            ≡ decide self.old.setting (history self.old.setting self.old.log) hart.0 choice }
        ensures of { IfOk result (λ e. (e.hart ≡ hart) × (choice_of e ≡ choice)) }
        ensures ok { IfOk result (λ e. self.new ≡ record self.old { log = self.old.log ++ e ∷ [] }) }
        ensures err { OnErr result (self.new ≡ self.old) }
        ensures block_run { IsBlockRun self.new.setting self.new.log }
    {
        if let Some(refused) = self.common_refusal(hart) {
            return Err(refused);
        }
        if self.is_chosen() {
            return self.step_chosen(hart, choice);
        }
        self.step_seen(hart, choice, None)
    }

    /// [`Machine::step`] of a hart whose `exec` is allowed ([`Machine::answer`]) and is a call that makes no fault
    /// ([`Machine::next_effect`], [`Machine::next_fault`]): its entry, and what the kernel wrote to memory in it, in order.
    pub fn step_call(&mut self, hart: Hart) -> (Entry, Written)
        requires allowed { (e : Entry)
            × (decide self.old.setting (history self.old.setting self.old.log) hart.0 Choice.Exec ≡ Ok e) }
        requires call { effect_here
            (here_in_history self.old.setting (history self.old.setting self.old.log) hart.0)
            ≡ Some Effect.Call }
        requires no_fault { fault_here
            (here_in_history self.old.setting (history self.old.setting self.old.log) hart.0) ≡ None }
        ensures answer { decide self.old.setting (history self.old.setting self.old.log) hart.0 Choice.Exec
            ≡ Ok result.0 }
        ensures log { self.new ≡ record self.old { log = self.old.log ++ result.0 ∷ [] } }
        ensures block_run { IsBlockRun self.new.setting self.new.log }
        ensures written { result.1.items ≡ (done_of Choice.Exec
            (here_in_history self.old.setting (history self.old.setting self.old.log) hart.0)).entered }
    {
        let seen = self.seen_if_chosen(hart);
        let made = self.parts.make_call(hart);
        append(&mut self.log, made.0);
        self.chosen = follow_seen(
            &mut self.parts.harts,
            &mut self.chooser,
            hart,
            Choice::Exec,
            seen,
        );
        made
    }
}
