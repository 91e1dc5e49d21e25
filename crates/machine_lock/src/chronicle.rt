//! What a turnstile holds: a machine that makes a log, entry by entry.
ghost use Rattle.std.specs.Prelude.{◌≡◌, List, length, IfOk, IfSome};
ghost use Rattle.mach_types.specs.declared.events.Entry.{Entry};
ghost use Rattle.machine_lock.specs.Logs.{Adds, Advances};

use mach_types::{Advance, Hart};
use std::alloc::{AllocError, Global};

/// What a machine and its log mean. It exists in proofs alone.
pub trait Meaning {
    ghost use Rattle.std.specs.Prelude.{Bool, List, Option};
    ghost use Rattle.mach_types.specs.declared.events.Entry.{Entry};
    ghost use Rattle.mach_types.specs.declared.events.Hart.{Hart};

    // What no call changes.
    ghost Setting: { Type 0 };

    ghost setting: { Self → Setting };

    ghost log: { Self → List Entry };

    // The entry that a hart makes next after a log, or none.
    ghost next: { Setting → List Entry → Hart → Option Entry };

    // Whether the run has ended at a log.
    ghost ended: { Setting → List Entry → Bool };
}

/// A machine whose harts make the entries of one log.
///
/// A worker may take a stretch of one hart's work along and do it where it doesn't hold the machine,
/// with a code, which is a copy of what never changes. What comes of it is appended later. (own)
pub trait Chronicle: Meaning {
    ghost use Rattle.std.specs.Prelude.{◌≡◌, true, List, ◌++◌, None};
    ghost use Rattle.mach_types.specs.declared.events.Entry.{Entry};
    ghost use Rattle.mach_types.specs.declared.events.Hart.{Hart};

    /// What a worker needs beside a stretch to work on it.
    type Code: Sync + Drop;

    /// A stretch of one hart's work, which is done without the machine.
    type Stretch: Drop;

    // The code is that of this machine's setting.
    ghost serves: { Self.Code → Self → Type 0 };

    // Under this machine's setting, the stretch may be appended for this hart to this log.
    ghost fits: { Self.Stretch → Self → Hart → List Entry → Type 0 };

    /// Makes the next entry of a hart, if the hart makes one and the run hasn't ended.
    fn advance(&mut self, hart: Hart) -> Advance
        ensures setting { Self.setting self.new ≡ Self.setting self.old }
        ensures advanced { Advances (Self.next (Self.setting self.old))
            (Self.ended (Self.setting self.old)) hart
            (Self.log self.old) (Self.log self.new) result };

    /// How many entries there are.
    fn made(&self) -> u32
        ensures { result ≡ length (Self.log self.now) };

    /// The code of this machine.
    fn code(&self, alloc: Global) -> Result<Self::Code, AllocError>
        ensures { IfOk result (λ code. serves code self.now) };

    /// A stretch of the hart's work, where there is one now.
    fn lend(&self, hart: Hart) -> Option<Self::Stretch>
        ensures { IfSome result (λ stretch. fits stretch self.now hart (Self.log self.now)) };

    /// Does the work of a stretch, which fits afterwards what it fitted before. It always returns.
    fn work(code: &Self::Code, stretch: &mut Self::Stretch)
        ensures { (machine : Self) (hart : Hart) (log : List Entry) → serves code.now machine
            → fits stretch.old machine hart log → fits stretch.new machine hart log };

    /// Appends what a stretch came to, and answers how many entries that was. It may be none, as where
    /// the hart has made an entry since the stretch was lent.
    fn append(&mut self, hart: Hart, stretch: Self::Stretch) -> u32
        requires fits { fits stretch self.old hart (Self.log self.old) }
        ensures setting { Self.setting self.new ≡ Self.setting self.old }
        ensures appended { Adds (Self.next (Self.setting self.old)) hart result
            (Self.log self.old) (Self.log self.new) };

    // Of a machine, its setting alone decides whether a code is that of it.
    ghost serves_by_setting: { (code : Self.Code) (a b : Self)
        → Self.setting a ≡ Self.setting b → serves code a → serves code b };

    // Of a machine, its setting alone decides whether a stretch fits.
    ghost fits_by_setting: { (stretch : Self.Stretch) (a b : Self) (hart : Hart) (log : List Entry)
        → Self.setting a ≡ Self.setting b → fits stretch a hart log → fits stretch b hart log };

    // What fits a log fits each log that begins with it.
    ghost fits_later: { (stretch : Self.Stretch) (machine : Self) (hart : Hart) (log more : List Entry)
        → fits stretch machine hart log → fits stretch machine hart (log ++ more) };

    // Where the run has ended, no hart makes an entry next.
    ghost still: { (machine : Self) (log : List Entry) (hart : Hart)
        → Self.ended (Self.setting machine) log ≡ true → Self.next (Self.setting machine) log hart ≡ None };
}
