//! The writes to memory that the kernel will make by an event (rseq(2), sigaction(2)), before it.

ghost use Rattle.std.specs.Prelude.{◌≡◌, ◌≢◌, ◌≤◌, ◌<◌, ◌+◌, ◌++◌, ◌^◌, [], IfSome, IsTrue, Some, None, false, is_some, length};
ghost use Rattle.std.specs.List.{list_any};
ghost use Rattle.mach_types.specs.Kernel.Areas.{words_on};
ghost use Rattle.mach_types.specs.Kernel.Areas as areas;
ghost use Rattle.mach_types.specs.Kernel.Barriers.{harts_that};
ghost use Rattle.mach_types.specs.Kernel.Signals.{fault_of, is_held};
ghost use Rattle.mach_types.specs.declared.sequences.TheConstants.{RSEQ_CS};
ghost use Rattle.mach_types.specs.declared.signals.TheConstants.{LAST_SIGNAL};
ghost use Rattle.page_map.specs.Map.{can_write_in};
ghost use Rattle.block_model.specs.Events.{done_of, refusal_of};
ghost use Rattle.block_model.specs.Events.Take.{killed_by};
ghost use Rattle.block_model.specs.Here.{Here, is_writable};
ghost use Rattle.block_model.specs.Sequences.{words_to};
ghost use Rattle.block_model.specs.Stands.{Stand, here_at};
ghost use Rattle.process.specs.Delivering.{entered_frame, killer_of};
ghost use Rattle.process.specs.Foresight.{foreseen_writes};
ghost use Rattle.process.specs.Refinement.{IsPlace, MayMake};
ghost use Rattle.process.specs.Sequences.{area_on, holds};

use crate::handlers::is_handler;
use crate::interrupt::{pc_after, pointer_cleared};
use crate::parts::{Parts, entry_of};
use arrayvec::ArrayVec;
use mach_types::{Area, Choice, Hart, Kind, Outcome, Saved, Tid, Write};
use rseq_area::{can_set_cpu, words_written};
use signals::next_signal_is_the_lowest;
use sys_calls::area_of;

/// The kernel's writes to memory by an event other than a call, in order: at most the pointer of an area and a frame.
pub type KernelWrites = ArrayVec<Write, 137>;

/// Adds writes, for which there must be room.
fn add(writes: &mut KernelWrites, more: &[Write])
    requires { length writes.old.items + length more.now ≤ 137 }
    ensures { writes.new.items ≡ writes.old.items ++ more.now }
{
    let _ = writes.try_extend_from_slice(more);
}

/// The write by which an interruption that comes to this clears the pointer of an area; none where it clears none.
fn pointer_writes(area: Option<Area>, outcome: Outcome) -> KernelWrites
    requires { areas.writes_of area outcome ≢ [] → IfSome area (λ a. a.at + RSEQ_CS < 2 ^ 64) }
    ensures written { result.items ≡ areas.writes_of area outcome }
    ensures count { length result.items ≤ 1 }
{
    let mut writes = KernelWrites::new();
    match (area, outcome) {
        (Some(area), Outcome::Cleared | Outcome::Aborted(_)) => {
            writes.push(pointer_cleared(area));
            writes
        }
        _ => writes,
    }
}

/// Whether an interruption that comes to this kills the process.
fn is_killed(outcome: Outcome) -> bool
    ensures { result ≡ is_some (killed_by outcome) }
{
    matches!(outcome, Outcome::Killed(_))
}

impl Parts {
    /// These writes, and behind them those of the words that the area of a thread gets which begins to run on a hart: none where it
    /// has no area, or where a byte of them can't be written. Some id must be held by no running thread.
    fn with_words(&self, mut writes: KernelWrites, hart: Hart, area: Option<Area>) -> KernelWrites
        requires room { length writes.items ≤ 1 }
        requires id { harts_that (λ id. list_any (holds id) self.now.harts.items) 8 ≢ 255 }
        ensures { (h : Here) → is_writable h ≡ can_write_in self.now.pages
            → result.items ≡ writes.items ++ words_to h area (words_on hart.0
            (areas.lowest_cid (harts_that (λ id. list_any (holds id) self.now.harts.items) 8))) }
    {
        let Some(area) = area else {
            return writes;
        };
        if !can_set_cpu(&self.pages, &area) {
            return writes;
        }
        let cpu = u32::from(hart.0);
        let cid = u32::from(self.next_id());
        add(&mut writes, &words_written(&area, cpu, cpu, 0, cid));
        writes
    }

    /// Adds the writes of the frame of a handler which a thread with this file would enter by a signal: none where the action of the
    /// signal is no handler, or where a byte of the frame can't be written.
    fn add_frame(&self, writes: &mut KernelWrites, tid: Tid, signal: u8, saved: &Saved)
        requires room { length writes.old.items ≤ 1 }
        requires held { IsTrue (is_held tid.0 self.now.kernel.signals) }
        requires lowest { 1 ≤ signal }
        requires highest { signal ≤ LAST_SIGNAL }
        ensures { writes.new.items ≡ writes.old.items
            ++ entered_frame (killer_of (can_write_in self.now.pages) signal saved.now self.now.kernel.signals)
            tid.0 signal (fault_of tid.0 signal self.now.kernel.signals) saved.now self.now.kernel.signals }
    {
        if !is_handler(self.kernel.signals.action(signal)) {
            return;
        }
        let signals = &self.kernel.signals;
        let fault = signals.fault_of(tid, signal);
        let Some(frame) = signals.frame_writes(&self.pages, tid, signal, fault, saved) else {
            return;
        };
        add(writes, frame.as_slice());
    }

    /// The writes by a `signal` on a hart: these of an interruption that comes to this and kills nothing, and behind them those of
    /// the frame of the handler that the thread enters.
    fn with_frame(&self, mut writes: KernelWrites, hart: Hart, outcome: Outcome) -> KernelWrites
        requires allowed { MayMake self.now hart.0 Choice.Signal }
        requires room { length writes.items ≤ 1 }
        ensures { (v : Stand) → IsPlace v self.now hart.0 → refusal_of Choice.Signal (here_at v hart.0) ≡ None
            → (done_of Choice.Signal (here_at v hart.0)).interrupted ≡ Some outcome
            → is_some (killed_by outcome) ≡ false
            → writes.items ≡ areas.writes_of (area_on (here_at v hart.0)) outcome
            → result.items ≡ (done_of Choice.Signal (here_at v hart.0)).entered }
    {
        next_signal_is_the_lowest();
        let state = &self.harts[hart.0 as usize];
        let entry = entry_of(hart, Kind::Signal, state);
        let pc = pc_after(state.pc, outcome);
        let saved = Saved {
            file: state.file,
            pc,
        };
        let Some(signal) = self.deliverable(hart) else {
            unreachable!()
        };
        self.add_frame(&mut writes, entry.tid, signal, &saved);
        writes
    }

    /// The writes to memory that the kernel will make by the event of a choice that is allowed on a hart, in order, whatever stands
    /// beside the process: those of an interruption, the words of the area of a thread that begins to run, and the frame of a
    /// handler. None by an `exec` or a `drain`; what a call writes is answered by [`Parts::make_call`]. Nothing changes.
    pub fn foreseen_writes(&self, hart: Hart, choice: Choice) -> KernelWrites
        requires { MayMake self.now hart.0 choice }
        ensures { (v : Stand) → IsPlace v self.now hart.0 → refusal_of choice (here_at v hart.0) ≡ None
            → result.items ≡ foreseen_writes choice (here_at v hart.0) }
    {
        let Some(outcome) = self.foreseen(hart, choice) else {
            return KernelWrites::new();
        };
        let entry = self.entry(hart, choice);
        let area = area_of(&self.kernel, entry.tid);
        let cleared = pointer_writes(area, outcome);
        if is_killed(outcome) {
            return cleared;
        }
        match choice {
            Choice::Run(_) => self.with_words(cleared, hart, area),
            Choice::Signal => self.with_frame(cleared, hart, outcome),
            Choice::Exec | Choice::Drain | Choice::Take | Choice::Done | Choice::Preempt => cleared,
        }
    }
}
