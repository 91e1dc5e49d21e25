//! The counts of acts so far, while a log is gone through.

ghost use Rattle.std.specs.Prelude.{◌≡◌, ◌<◌, IfOk, OnOk, Some, length};
ghost use Rattle.std.specs.Option.{option_map};
ghost use Rattle.block_view.specs.Counters.{CanCount, CanEnd, CanNote, count_noted, count_settled, counts_at_end, halted, hart_in, hart_noted, hung_now, hung_of, kept_counts, nothing_counted, without_hung};

use crate::course::Course;
use crate::forms::Form;
use crate::passing::Passed;
use crate::tally::Counts;
use block_model::SeqEnd;
use mach_types::{Hart, Tid};
use std::alloc::{AllocError, Global};

/// What is counted of a hart.
#[derive(Clone, Copy, Drop)]
pub(crate) struct HartCount {
    /// Its acts by their forms.
    pub(crate) counts: Counts,
    /// The course of its sequence that goes on.
    pub(crate) going: Option<Course>,
}

impl HartCount {
    /// Takes one entry more of the hart.
    fn note(&mut self, passed: &Passed)
        requires { CanCount self.old }
        ensures { self.new ≡ hart_noted passed.now self.old }
    {
        match self.going {
            Some(course) if passed.is_taken_in() => self.going = Some(course.gone_on(passed)),
            Some(course) => {
                self.halt(course, passed);
                self.counts.add(passed.form_alone());
            }
            None if passed.begins() => {
                self.counts.add(Form::Sequence(SeqEnd::Unended));
                self.going = Some(Course::of(passed));
            }
            None => self.counts.add(passed.form_alone()),
        }
    }

    /// Its sequence goes on no longer: it stays unended where its thread is preempted inside, and else ends with this
    /// entry.
    fn halt(&mut self, course: Course, passed: &Passed)
        requires { CanEnd self.old.counts }
        ensures { self.new ≡ halted course passed.now self.old }
    {
        self.going = None;
        if !passed.leaves_inside() {
            self.counts.end_one(course.end_before(passed));
        }
    }

    /// Its counts where the log ends, with its thread inside or not: there its sequence that goes on ends.
    pub(crate) fn counts_at_end(mut self, inside: bool) -> Counts
        requires { (c : Course) → self.going ≡ Some c → CanEnd self.counts }
        ensures { result ≡ counts_at_end inside self }
    {
        if let Some(course) = self.going {
            self.counts.end_one(course.end_so_far(inside));
        }
        self.counts
    }
}

/// A sequence that hangs: its thread was preempted inside, and hasn't begun to run since.
#[derive(Clone, Copy, Drop)]
pub(crate) struct Hung {
    /// The thread.
    pub(crate) tid: Tid,
    /// The hart that it was preempted on, among whose acts the sequence is.
    pub(crate) hart: Hart,
}

/// The counts of acts so far. It keeps what a [`Ledger`](crate::Ledger) does, with the counts of each hart in place
/// of the list of the acts, so it takes no memory for an act. A sequence that has no end yet is counted as unended.
#[derive(Drop)]
pub struct Counter {
    /// What is counted of each hart.
    pub(crate) harts: Vec<HartCount>,
    /// The sequences that hang.
    pub(crate) hanging: Vec<Hung>,
}

impl Counter {
    /// That of a log with no entries, on so many harts.
    pub(crate) fn empty(alloc: Global, harts: u8) -> Result<Counter, AllocError>
        ensures { IfOk result (λ counter. kept_counts counter ≡ nothing_counted harts) }
    {
        let mut counts = Vec::new(alloc);
        for _ in 0..harts {
            counts.push(HartCount {
                counts: Counts::new(),
                going: None,
            })?;
        }
        Ok(Counter {
            harts: counts,
            hanging: Vec::new(alloc),
        })
    }

    /// Takes one entry more.
    pub(crate) fn note(&mut self, passed: &Passed) -> Result<(), AllocError>
        requires { CanNote passed.now (kept_counts self.old) }
        ensures { OnOk result (kept_counts self.new ≡ count_noted passed.now (kept_counts self.old)) }
    {
        self.settle(passed);
        self.hang(passed)?;
        self.harts[passed.hart()].note(passed);
        Ok(())
    }

    /// Ends the sequence that hangs of the thread that begins to run by this entry, if it does and one hangs.
    fn settle(&mut self, passed: &Passed)
        requires { (x : Hung) → hung_of (kept_counts self.old) passed.now.entry.tid ≡ Some x
            → (x.hart.0 < length self.old.harts.items) × CanEnd (hart_in (kept_counts self.old) x.hart.0).counts }
        ensures { kept_counts self.new ≡ count_settled passed.now (kept_counts self.old) }
    {
        if !passed.runs() {
            return;
        }
        let tid = passed.entry.tid;
        let Some(hart) = self.hart_of_hung(tid) else {
            return;
        };
        self.harts[usize::from(hart.0)]
            .counts
            .end_one(passed.verdict());
        self.forget(tid);
    }

    /// The sequence of its hart hangs from now on, where this entry preempts its thread inside it.
    fn hang(&mut self, passed: &Passed) -> Result<(), AllocError>
        requires { passed.now.entry.hart.0 < length self.old.harts.items }
        ensures { OnOk result (kept_counts self.new ≡ hung_now passed.now (kept_counts self.old)) }
    {
        if passed.leaves_inside() && self.harts[passed.hart()].going.is_some() {
            self.hanging.push(Hung {
                tid: passed.entry.tid,
                hart: passed.entry.hart,
            })?;
        }
        Ok(())
    }

    /// No sequence of a thread hangs any more.
    fn forget(&mut self, tid: Tid)
        ensures { kept_counts self.new ≡ without_hung tid (kept_counts self.old) }
    {
        self.hanging.retain(|hung| hung.tid != tid);
    }

    /// The hart of the sequence of a thread that hangs.
    fn hart_of_hung(&self, tid: Tid) -> Option<Hart>
        ensures { result ≡ option_map (λ x. x.hart) (hung_of (kept_counts self.now) tid) }
    {
        for hung in &self.hanging {
            if hung.tid == tid {
                return Some(hung.hart);
            }
        }
        None
    }
}
