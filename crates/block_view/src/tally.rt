//! A tally of acts by their forms.

ghost use Rattle.std.specs.Prelude.{◌≡◌, ◌+◌, ◌<◌, ◌^◌};
ghost use Rattle.block_view.specs.Counters.{CanEnd, ended_one};
ghost use Rattle.block_view.specs.Counting.{counted, no_counts, total};

use crate::forms::Form;
use block_model::SeqEnd;

/// How many acts of each form a hart has.
#[derive(Clone, Copy, Drop)]
pub struct Counts {
    /// Steps: instructions and stores that entered memory, outside all sequences.
    pub step: u32,
    /// Sequences that their thread left by its own instruction.
    pub left: u32,
    /// Sequences that were interrupted inside, whose thread went on at their abort handler.
    pub cut: u32,
    /// Sequences that were dropped, since what their area named changed.
    pub dropped: u32,
    /// Sequences with which the process ended.
    pub dead: u32,
    /// Sequences that had no end where the log ended.
    pub unended: u32,
    /// Events of the kernel.
    pub kernel: u32,
}

impl Counts {
    /// Counts of no act.
    pub(crate) fn new() -> Counts
        ensures { result ≡ no_counts }
    {
        Counts {
            step: 0,
            left: 0,
            cut: 0,
            dropped: 0,
            dead: 0,
            unended: 0,
            kernel: 0,
        }
    }

    /// Counts one act more of a form.
    pub(crate) fn add(&mut self, form: Form)
        requires few { total self.old + 1 < 2 ^ 32 }
        ensures { self.new ≡ counted form self.old }
    {
        match form {
            Form::Step => self.step += 1,
            Form::Kernel => self.kernel += 1,
            Form::Sequence(SeqEnd::Left) => self.left += 1,
            Form::Sequence(SeqEnd::Cut(_)) => self.cut += 1,
            Form::Sequence(SeqEnd::Dropped) => self.dropped += 1,
            Form::Sequence(SeqEnd::Dead) => self.dead += 1,
            Form::Sequence(SeqEnd::Unended) => self.unended += 1,
        }
    }

    /// A sequence that was unended ends.
    pub(crate) fn end_one(&mut self, end: SeqEnd)
        requires { CanEnd self.old }
        ensures { self.new ≡ ended_one end self.old }
    {
        self.unended -= 1;
        self.add(Form::Sequence(end));
    }
}
