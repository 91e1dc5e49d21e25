//! An event of another process on the machine, as a process sees it: reservations end, and requests of barriers come and go.

ghost use Rattle.std.specs.Prelude.{◌≡◌, ◌<◌, ◌==◌, ℕ, map, slice_get};
ghost use Rattle.std.specs.Option.{option_map};
ghost use Rattle.block_model.specs.Here.{Done};
ghost use Rattle.block_model.specs.Plain.{Plain};
ghost use Rattle.block_model.specs.Setting.{Setting};
ghost use Rattle.block_model.specs.Stands.{aside};
ghost use Rattle.sys_calls.specs.Made.{barrier_of};
ghost use Rattle.process.specs.OtherProcess.{taken_aside};
ghost use Rattle.process.specs.Refinement.{IsTied};
ghost use Rattle.process.specs.Reservations.{lost_by_all};

use crate::parts::Parts;
use crate::requests::take_all_aside;
use crate::reservations::lose_everywhere;
use mach_types::{Hart, Write};
use sys_calls::CallEnd;

impl Parts {
    /// All harts lose their reservations of bytes that were written.
    fn lose_all(&mut self, writes: &[Write])
        ensures harts { self.new.harts.items ≡ map (lost_by_all writes.now) self.old.harts.items }
        ensures pages { self.new.pages ≡ self.old.pages }
        ensures kernel { self.new.kernel ≡ self.old.kernel }
        ensures ended { self.new.ended ≡ self.old.ended }
    {
        lose_everywhere(&mut self.harts, writes);
    }

    /// The requests at a hart were taken: there are none there any more, and no barrier waits for it.
    fn take_aside(&mut self, hart: Hart)
        requires { hart.0 < 8 }
        ensures harts { (k : ℕ) → slice_get self.new.harts.items k
            ≡ option_map (taken_aside (k == hart.0) hart.0) (slice_get self.old.harts.items k) }
        ensures pages { self.new.pages ≡ self.old.pages }
        ensures kernel { self.new.kernel ≡ self.old.kernel }
        ensures ended { self.new.ended ≡ self.old.ended }
    {
        take_all_aside(&mut self.harts, hart);
    }

    /// An event of another process on a hart passes this process by: its harts lose their reservations of the bytes that the event
    /// wrote to memory that both share; where the event began a barrier (`end`) its requests are made at this process's harts too;
    /// and where it took the requests at its hart, there are none there any more, and no barrier of this process waits for that
    /// hart. Nothing else changes, and no event of this process is counted.
    ///
    /// The parts may stand anywhere, also where their process has ended.
    pub fn pass_by(&mut self, hart: Hart, took: bool, end: CallEnd, writes: &[Write])
        requires { hart.0 < 8 }
        ensures { (s : Setting) (p : Plain) (d : Done) → IsTied s p self.old → d.took ≡ took
            → d.barrier ≡ barrier_of end → IsTied s (aside hart.0 d writes.now p) self.new }
    {
        self.lose_all(writes);
        self.ask(hart, end);
        if took {
            self.take_aside(hart);
        }
    }
}
