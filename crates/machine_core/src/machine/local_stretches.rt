//! Stretches of a hart's work, lent by a machine and appended to its log.

ghost use Rattle.std.specs.Prelude.{◌≡◌, ◌<◌, ◌≤◌, ◌+◌, ◌^◌, ◌++◌, false, Some, IfOk, IsSome, map, length, vec_capacity};
ghost use Rattle.std.specs.List.Sorted.{IsStrictlyIncreasing};
ghost use Rattle.std.specs.Option.{option_map};
ghost use Rattle.elf_load.specs.declared.image.ImagePage.{ImagePage};
ghost use Rattle.block_model.specs.Choosing.{IsChosen, has_ended};
ghost use Rattle.block_model.specs.Deciding.{history};
ghost use Rattle.block_model.specs.History.{events};
ghost use Rattle.block_model.specs.Run.{IsBlockRun};
ghost use Rattle.block_model.specs.Stretches.{IsStretchOf, advanced, appended, lent};
ghost use Rattle.process.specs.Pages.{code_of};
ghost use Rattle.machine_core.specs.Stretches.{executed, stretch_of, stretch_on, taken_in};

use crate::machine::{Machine, append};
use crate::stretches::Stretch;
use arrayvec::ArrayVec;
use hart_state::HartState;
use mach_types::{Entry, Hart, Kind, Tid};
use process::{Code, effect_of_next, is_local};
use std::alloc::{AllocError, Global};

/// The stretch of a hart in this state, where a thread runs on it, waits in no barrier, and has the credit for its next instruction.
fn stretch_on(code: &Code, hart: Hart, state: &HartState) -> Option<Stretch>
    ensures { option_map stretch_of result ≡ stretch_on code.now hart.0 state.now }
{
    if state.is_idle() || state.waits.is_some() || state.credit == 0 {
        return None;
    }
    if !is_local(effect_of_next(code, state).as_ref()) {
        return None;
    }
    Some(Stretch {
        hart,
        events: state.events,
        file: state.file,
        pc: state.pc,
        credit: state.credit,
        pcs: ArrayVec::new(),
    })
}

/// Appends an instruction of a thread at each of these addresses.
fn append_executed(log: &mut Vec<Entry>, hart: Hart, tid: Tid, pcs: &[u64])
    requires room { length log.old.items + length pcs.now ≤ vec_capacity log.old }
    ensures items { log.new.items ≡ log.old.items ++ map (executed hart tid) pcs.now }
    ensures capacity { vec_capacity log.old ≤ vec_capacity log.new }
{
    for pc in pcs {
        append(
            log,
            Entry {
                hart,
                kind: Kind::Exec,
                tid,
                pc: *pc,
            },
        );
    }
}

/// The hart as a stretch of its work leaves it.
fn take_in(state: &mut HartState, stretch: &Stretch)
    requires ran { state.old.ran + length stretch.now.pcs.items < 2 ^ 32 }
    requires events { state.old.events + length stretch.now.pcs.items < 2 ^ 32 }
    ensures { state.new ≡ taken_in (stretch_of stretch.now) state.old }
{
    let count = stretch.pcs.len() as u32;
    state.file = stretch.file;
    state.pc = stretch.pc;
    state.credit = stretch.credit;
    state.ran += count;
    state.events += count;
}

impl Machine {
    /// Whether the run has ended or the log is full.
    pub(crate) fn has_ended(&self) -> bool
        ensures answer { result ≡ has_ended self.now.setting (history self.now.setting self.now.log) }
        ensures block_run { IsBlockRun self.now.setting self.now.log }
    {
        self.parts.ended.is_some() || self.log.len() >= self.limits.steps as usize
    }

    /// The pages of the program that may be executed, in rising order. They never change. The page that signal handlers return to
    /// is the same for every program, and isn't among them.
    pub fn code(&self, alloc: Global) -> Result<Code, AllocError>
        ensures code { IfOk result (λ code. code ≡ code_of self.now.setting.program.pages) }
        ensures rising { IfOk result
            (λ code. IsStrictlyIncreasing
            (map (λ (p : ImagePage). p.number) self.now.setting.program.pages)) }
    {
        self.code.executable(alloc)
    }

    /// The stretch of a hart that may be worked without the machine now. None exactly where the run has ended or the log is full,
    /// or where the hart doesn't execute its next instruction on credit. Each entry of the log was made by
    /// [`Machine::advance`].
    pub fn lend_local(&self, hart: Hart) -> Option<Stretch>
        requires chosen { IsChosen self.now.setting self.now.seed self.now.log }
        ensures { option_map stretch_of result
            ≡ lent self.now.setting self.now.seed hart.0 (history self.now.setting self.now.log) }
    {
        if self.has_ended() || hart.0 >= self.limits.harts {
            return None;
        }
        stretch_on(&self.code, hart, self.hart(hart))
    }

    /// Appends what a stretch of the hart came to, which was lent at a log that this one begins with and was changed by [`work`]
    /// over this machine's code alone. Answers how many entries that was: 0 exactly where the stretch has no instructions, the run has
    /// ended, or the hart has made an event since the lending; then nothing changes. Else it is the number of instructions, or
    /// the room in the log if that is less, and the machine is as so many calls of [`Machine::advance`] leave it.
    ///
    /// [`work`]: crate::work
    pub fn append_local(&mut self, hart: Hart, stretch: Stretch) -> u32
        requires chosen { IsChosen self.old.setting self.old.seed self.old.log }
        requires fits { IsStretchOf self.old.setting self.old.seed hart.0 self.old.log (stretch_of stretch) }
        ensures count { result
            ≡ appended self.old.setting hart.0 (history self.old.setting self.old.log) (stretch_of stretch) }
        ensures setting { self.new.setting ≡ self.old.setting }
        ensures seed { self.new.seed ≡ self.old.seed }
        ensures log { advanced self.old.setting self.old.seed hart.0 result self.old.log ≡ Some self.new.log }
        ensures chosen { IsChosen self.new.setting self.new.seed self.new.log }
        ensures block_run { IsBlockRun self.new.setting self.new.log }
    {
        if self.has_ended() || stretch.pcs.is_empty() || self.hart(hart).events != stretch.events {
            return 0;
        }
        let room = self.limits.steps - self.log.len() as u32;
        let count = stretch.pcs.len() as u32;
        if room < count {
            self.advance_often(hart, room);
            room
        } else {
            self.append_whole(hart, stretch);
            count
        }
    }

    /// Makes the next entry of a hart so many times, where it makes so many.
    fn advance_often(&mut self, hart: Hart, count: u32)
        requires chosen { IsChosen self.old.setting self.old.seed self.old.log }
        requires block_run { IsBlockRun self.old.setting self.old.log }
        requires makes { IsSome (advanced self.old.setting self.old.seed hart.0 count self.old.log) }
        ensures setting { self.new.setting ≡ self.old.setting }
        ensures seed { self.new.seed ≡ self.old.seed }
        ensures log { advanced self.old.setting self.old.seed hart.0 count self.old.log ≡ Some self.new.log }
        ensures chosen { IsChosen self.new.setting self.new.seed self.new.log }
        ensures block_run { IsBlockRun self.new.setting self.new.log }
    {
        for _ in 0..count {
            self.advance(hart);
        }
    }

    /// Appends a stretch for all of whose instructions the log has room.
    fn append_whole(&mut self, hart: Hart, stretch: Stretch)
        requires chosen { IsChosen self.old.setting self.old.seed self.old.log }
        requires fits { IsStretchOf self.old.setting self.old.seed hart.0 self.old.log (stretch_of stretch) }
        requires events { events hart.0 (history self.old.setting self.old.log) ≡ stretch.events }
        requires goes { has_ended self.old.setting (history self.old.setting self.old.log) ≡ false }
        requires room { length self.old.log + length stretch.pcs.items ≤ self.old.setting.limits.steps }
        ensures setting { self.new.setting ≡ self.old.setting }
        ensures seed { self.new.seed ≡ self.old.seed }
        ensures log { advanced self.old.setting self.old.seed hart.0 (length stretch.pcs.items) self.old.log
            ≡ Some self.new.log }
        ensures chosen { IsChosen self.new.setting self.new.seed self.new.log }
        ensures block_run { IsBlockRun self.new.setting self.new.log }
    {
        let state = &mut self.parts.harts[hart.0 as usize];
        let Some(tid) = state.running else {
            unreachable!()
        };
        take_in(state, &stretch);
        append_executed(&mut self.log, hart, tid, stretch.pcs.as_slice());
    }
}
