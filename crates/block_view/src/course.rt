//! The course of a restartable sequence that goes on: what of its last events decides how it ends.

ghost use Rattle.std.specs.Prelude.{◌≡◌};
ghost use Rattle.block_view.specs.Ledgers.{course_by, end_by, end_here, gone_by, left_or_dropped};

use crate::passing::Passed;
use block_model::SeqEnd;

/// The course of a sequence that goes on: the newest event of its hart is of it.
#[derive(Clone, Copy, Drop)]
pub(crate) struct Course {
    /// Whether its last instruction moved the pc out of the range that was named before that.
    pub(crate) moved_out: bool,
    /// Whether its last event ended the process.
    pub(crate) died: bool,
}

impl Course {
    /// That of a sequence that begins with an entry.
    pub(crate) fn of(passed: &Passed) -> Course
        ensures { result ≡ course_by passed.now }
    {
        Course {
            moved_out: passed.moved_out(),
            died: passed.killed,
        }
    }

    /// It with one entry more, which the sequence takes in.
    pub(crate) fn gone_on(&self, passed: &Passed) -> Course
        ensures { result ≡ gone_by self.now passed.now }
    {
        let moved_out = if passed.executes() {
            passed.moved_out()
        } else {
            self.moved_out
        };
        Course {
            moved_out,
            died: passed.killed,
        }
    }

    /// How the sequence ends where it goes on no longer and no event interrupts it.
    fn left_or_dropped(&self) -> SeqEnd
        ensures { result ≡ left_or_dropped self.now }
    {
        if self.moved_out {
            SeqEnd::Left
        } else {
            SeqEnd::Dropped
        }
    }

    /// How it ends with the next event of its hart, which isn't of it and doesn't preempt its thread inside.
    pub(crate) fn end_before(&self, passed: &Passed) -> SeqEnd
        ensures { result ≡ end_by self.now passed.now }
    {
        let outside = passed.inside.is_none();
        if self.died || passed.is_fatal() && !(self.moved_out && outside) {
            return SeqEnd::Dead;
        }
        match passed.inside {
            Some(sequence) if passed.interrupts => SeqEnd::Cut(sequence.abort),
            Some(_) => SeqEnd::Unended,
            None => self.left_or_dropped(),
        }
    }

    /// How it ends where the log does, with its thread inside or not.
    pub(crate) fn end_so_far(&self, inside: bool) -> SeqEnd
        ensures { result ≡ end_here self.now inside }
    {
        if self.died {
            SeqEnd::Dead
        } else if inside {
            SeqEnd::Unended
        } else {
            self.left_or_dropped()
        }
    }
}
