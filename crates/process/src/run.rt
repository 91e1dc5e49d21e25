//! `run`: a ready thread is interrupted (rseq(2)) and begins to run on an idle hart, or the process is killed.

ghost use Rattle.std.specs.Prelude.{◌≡◌, ◌≢◌, ◌==◌, ℕ, Some, slice_get, true, None};
ghost use Rattle.std.specs.List.{list_any};
ghost use Rattle.std.specs.Option.{option_map};
ghost use Rattle.mach_types.specs.Kernel.Areas.{pc_after, words_on};
ghost use Rattle.mach_types.specs.Kernel.Areas as areas;
ghost use Rattle.mach_types.specs.Kernel.Barriers.{harts_that};
ghost use Rattle.mach_types.specs.Kernel.Scheduling.{without_ready};
ghost use Rattle.scheduler.specs.Holding.{is_ready};
ghost use Rattle.mach_types.specs.Kernel.Threads.{runs, with_state};
ghost use Rattle.mach_types.specs.declared.signals.TheConstants.{SIGSEGV};
ghost use Rattle.mach_types.specs.declared.threads.ThreadState.{ThreadState};
ghost use Rattle.hart_state.specs.State.{entered};
ghost use Rattle.kernel_threads.specs.Table.{IsTable, with_saved};
ghost use Rattle.page_map.specs.Map.{can_write_in};
ghost use Rattle.block_model.specs.Here.{Here, is_writable};
ghost use Rattle.block_model.specs.Sequences.{can_write_words, words_to};
ghost use Rattle.process.specs.ContextSwitch.{HasHart, IsChanged, IsReadied, IsWaiting, begun_without};
ghost use Rattle.process.specs.Reservations.{lost_unless};
ghost use Rattle.process.specs.Sequences.{holds};
ghost use Rattle.process.specs.Stored.{IsWritten};
ghost use Rattle.process.specs.Refinement.{HasPlace, IsEvent, IsRefusal, MayMake};

use crate::interrupt::pc_after;
use crate::parts::Parts;
use hart_state::HartState;
use mach_types::signals::SIGSEGV;
use mach_types::{Area, Choice, End, Hart, Outcome, Saved, Tid, Why};
use rseq_area::{lowest_cid, set_cpu, words_written};
use sys_calls::area_of;

/// Whether the thread on a hart holds this id.
fn holds(state: &HartState, id: u8) -> bool
    ensures { result ≡ holds id state.now }
{
    !state.is_idle() && state.cid == id
}

/// Whether a thread on one of these harts holds this id.
fn is_held(harts: &[HartState], id: u8) -> bool
    ensures { result ≡ list_any (holds id) harts.now }
{
    for state in harts {
        if holds(state, id) {
            return true;
        }
    }
    false
}

/// The set of the ids that the threads on these harts hold, a bit for each of the 8 ids.
fn held_ids(harts: &[HartState]) -> u8
    ensures { result ≡ harts_that (λ id. list_any (holds id) harts.now) 8 }
{
    let mut held = 0;
    for id in 0..8u8 {
        if is_held(harts, id) {
            held += 1u8 << id;
        }
    }
    held
}

impl Parts {
    /// Why a thread can't begin to run on a hart.
    pub(crate) fn refusal_run(&self, hart: Hart, tid: Tid) -> Option<Why>
        requires { HasPlace self.now hart.0 }
        ensures { IsRefusal self.now hart.0 (Choice.Run tid) result }
    {
        if !self.harts[hart.0 as usize].is_idle() {
            Some(Why::Busy)
        } else if !self.is_ready(tid) {
            Some(Why::NotReady)
        } else if !self.kernel.ready.allows(tid, hart) {
            Some(Why::NotAllowed)
        } else {
            None
        }
    }

    /// The least id that no running thread holds.
    pub(crate) fn next_id(&self) -> u8
        requires { harts_that (λ id. list_any (holds id) self.now.harts.items) 8 ≢ 255 }
        ensures { result ≡ areas.lowest_cid (harts_that (λ id. list_any (holds id) self.now.harts.items) 8) }
    {
        lowest_cid(held_ids(&self.harts))
    }

    /// The area of a thread that begins to run gets the words of its hart and of the id that it is to hold. False exactly where
    /// they can't be written; then nothing changes. A thread without an area has none to write.
    fn told(&mut self, hart: Hart, area: Option<Area>, id: u8) -> bool
        ensures answer { (h : Here) → is_writable h ≡ can_write_in self.old.pages
            → result ≡ can_write_words h area }
        ensures pages { (h : Here) → is_writable h ≡ can_write_in self.old.pages
            → IsWritten (words_to h area (words_on hart.0 id)) self.old.pages self.new.pages }
        ensures harts { (h : Here) (k : ℕ) → is_writable h ≡ can_write_in self.old.pages
            → slice_get self.new.harts.items k
            ≡ option_map (lost_unless (k == hart.0) (words_to h area (words_on hart.0 id)))
            (slice_get self.old.harts.items k) }
        ensures kernel { self.new.kernel ≡ self.old.kernel }
        ensures ended { self.new.ended ≡ self.old.ended }
    {
        let Some(area) = area else {
            return true;
        };
        let cpu = u32::from(hart.0);
        let cid = u32::from(id);
        if !set_cpu(&mut self.pages, &area, cpu, cpu, 0, cid) {
            return false;
        }
        self.lose(hart, &words_written(&area, cpu, cpu, 0, cid));
        true
    }

    /// A thread with this area that waited with this file is interrupted, and where the process lives on its area gets the words
    /// of its hart and of the id that it is to hold. Answers whether the process does, with the file in which the thread goes on.
    fn readied(&mut self, hart: Hart, area: Option<Area>, saved: &mut Saved, id: u8) -> bool
        ensures readied { (h : Here) (t : ℕ) → IsWaiting h t hart.0 self.old.pages area saved.old id
            → IsReadied h t result saved.new self.old self.new }
        ensures kernel { self.new.kernel ≡ self.old.kernel }
        ensures ended { self.new.ended ≡ self.old.ended }
    {
        let outcome = self.interrupted(hart, area, saved.pc);
        saved.pc = pc_after(saved.pc, outcome);
        match outcome {
            Outcome::Killed(_) => false,
            Outcome::Nothing | Outcome::Cleared | Outcome::Aborted(_) => {
                self.told(hart, area, id)
            }
        }
    }

    /// A thread that was readied begins to run on a hart, and holds an id.
    fn take_up(&mut self, hart: Hart, tid: Tid, saved: Saved, id: u8)
        requires listed { HasHart self.old.harts.items hart.0 }
        requires ready { is_ready tid.0 self.old.kernel.ready ≡ true }
        ensures harts { IsChanged hart.0 (entered tid saved id) self.old.harts.items self.new.harts.items }
        ensures ready { self.new.kernel.ready ≡ without_ready tid.0 self.old.kernel.ready }
        ensures others { self.new.kernel ≡ record self.old.kernel { ready = self.new.kernel.ready } }
        ensures pages { self.new.pages ≡ self.old.pages }
        ensures ended { self.new.ended ≡ self.old.ended }
    {
        let _ready = self.kernel.ready.take(tid);
        let state = &mut self.harts[hart.0 as usize];
        state.enter(tid, saved, id);
    }

    /// The process is killed before a thread begins to run on a hart: the thread stays ready, as it was interrupted.
    fn kill(&mut self, hart: Hart, tid: Tid, saved: Saved)
        requires listed { HasHart self.old.harts.items hart.0 }
        requires runs { runs self.old.kernel.threads.threads tid.0 }
        ensures harts { IsChanged hart.0 begun_without self.old.harts.items self.new.harts.items }
        ensures threads { self.new.kernel.threads.threads
            ≡ with_state tid.0 ThreadState.Ready self.old.kernel.threads.threads }
        ensures saved { self.new.kernel.threads.saved
            ≡ with_saved tid.0 (Some saved) self.old.kernel.threads.saved }
        ensures table { IsTable self.new.kernel.threads }
        ensures others { self.new.kernel ≡ record self.old.kernel { threads = self.new.kernel.threads } }
        ensures pages { self.new.pages ≡ self.old.pages }
        ensures ended { self.new.ended ≡ Some (End.Killed SIGSEGV) }
    {
        self.kernel.threads.leave(tid, saved);
        let state = &mut self.harts[hart.0 as usize];
        state.reserved = None;
        state.ran = 0;
        self.ended = Some(End::Killed(SIGSEGV));
    }

    /// A ready thread begins to run on an idle hart.
    pub(crate) fn begun(&mut self, hart: Hart, tid: Tid)
        requires { MayMake self.old hart.0 (Choice.Run tid) }
        ensures { IsEvent self.old hart.0 (Choice.Run tid) self.new }
    {
        let area = area_of(&self.kernel, tid);
        let id = self.next_id();
        let mut saved = self.kernel.threads.run(tid, hart);
        if self.readied(hart, area, &mut saved, id) {
            self.take_up(hart, tid, saved, id);
        } else {
            self.kill(hart, tid, saved);
        }
    }
}
