//! The events of a log as they were seen: what decides which sequences can be gathered, and where.

ghost use Rattle.std.specs.Prelude.{◌≡◌, ◌<◌};
ghost use Rattle.log_gather.specs.Accesses.{bytes_in};
ghost use Rattle.log_gather.specs.Located.{lost_to_bytes};
ghost use Rattle.log_gather.specs.Turns.{reserved_after};

use crate::accesses::Access;
use mach_types::Entry;
use rseq_area::Lookups;

/// What each hart has reserved: the address of 8 aligned bytes, or nothing.
pub(crate) type Reservations = [Option<u64>; 8];

/// An event of a log.
#[derive(Clone, Copy, Drop)]
pub(crate) struct Step {
    /// Its entry.
    pub(crate) entry: Entry,
    /// Whether it is plain: a store enters memory, or an instruction makes neither a fault nor a call.
    pub(crate) plain: bool,
    /// Whether the thread on its hart is inside a restartable sequence before it.
    pub(crate) inside: bool,
    /// Whether it is of a restartable sequence.
    pub(crate) within: bool,
    /// Whether it is the first of one.
    pub(crate) begins: bool,
    /// Whether it is plain and moves the pc out of the sequence that its thread's area named before it.
    pub(crate) moves_out: bool,
    /// What its access touches; nothing where it isn't plain.
    pub(crate) access: Access,
    /// At which bytes the check of its thread's area looks, where it is plain and the thread has one.
    pub(crate) looked_at: Option<Lookups>,
    /// What each hart has reserved before it.
    pub(crate) reserved: Reservations,
    /// Whether it is the first of a sequence whose turn to be gathered is still to come.
    pub(crate) awaits: bool,
}

impl Step {
    /// What another hart has reserved after it, where it had this.
    fn keeps(&self, reserved: Option<u64>) -> Option<u64>
        ensures { result ≡ lost_to_bytes (bytes_in self.now.access.entered) reserved }
    {
        match (reserved, self.access.entered) {
            (Some(start), Some(bytes)) if bytes.is_of_eight_from(start) => None,
            _ => reserved,
        }
    }

    /// Makes of what each hart has reserved before it what each has after it, where it is plain.
    pub(crate) fn pass(&self, reserved: &mut Reservations)
        requires { self.now.entry.hart.0 < 8 }
        ensures { reserved.new ≡ reserved_after self.now reserved.old }
    {
        let own = usize::from(self.entry.hart.0);
        let kept = reserved[own];
        for reservation in reserved.iter_mut() {
            *reservation = self.keeps(*reservation);
        }
        reserved[own] = self.access.reserves.unwrap_or(kept);
    }
}
