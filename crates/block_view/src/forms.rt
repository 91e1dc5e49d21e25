//! Acts, the events of a log grouped, by their forms.

ghost use Rattle.std.specs.Prelude.{◌≡◌};
ghost use Rattle.block_view.specs.Forms.{form_word};

use block_model::SeqEnd;
use mach_types::{Hart, Tid};

/// What an act is.
#[derive(Clone, Copy, PartialEq, Eq, Drop)]
pub enum Form {
    /// One instruction, or one store that enters memory, outside all sequences.
    Step,
    /// One event of the kernel.
    Kernel,
    /// A restartable sequence (rseq(2)), and how it ended.
    Sequence(SeqEnd),
}

/// The word of a form (own).
pub fn form_word(form: Form) -> &'static [u8]
    ensures { result.now ≡ form_word form }
{
    match form {
        Form::Step => b"step",
        Form::Kernel => b"kernel",
        Form::Sequence(SeqEnd::Dead) => b"dead",
        Form::Sequence(SeqEnd::Cut(_)) => b"cut",
        Form::Sequence(SeqEnd::Left) => b"left",
        Form::Sequence(SeqEnd::Dropped) => b"dropped",
        Form::Sequence(SeqEnd::Unended) => b"open",
    }
}

/// An act of a hart: an event, or a restartable sequence with all its events.
#[derive(Clone, Copy, Drop)]
pub struct Act {
    /// The hart.
    pub hart: Hart,
    /// The number of its first entry in the log, counted from 1.
    pub first: u32,
    /// The number of its last entry. Between the two there may be entries of other harts.
    pub last: u32,
    /// The thread that runs on the hart before the first entry, or begins to run by it; 0 where there is none.
    pub tid: Tid,
    /// What it is.
    pub form: Form,
}

/// The acts of a log.
#[derive(Drop)]
pub struct Acts {
    /// The acts, in the order of their first entries.
    pub list: Vec<Act>,
}
