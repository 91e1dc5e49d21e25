//! The interruption of a thread (rseq(2)): where it goes on, and the pointer of its area that becomes 0.

ghost use Rattle.std.specs.Prelude.{◌≡◌, ◌≢◌, ◌<◌, ◌+◌, ◌^◌, ◌==◌, ◌∷◌, [], ℕ, IfSome, Some, slice_get};
ghost use Rattle.std.specs.Option.{option_map};
ghost use Rattle.mach_types.specs.Kernel.Areas.{interruption, pc_after};
ghost use Rattle.mach_types.specs.Kernel.Areas as areas;
ghost use Rattle.mach_types.specs.declared.sequences.TheConstants.{RSEQ_CS};
ghost use Rattle.page_map.specs.Map.{byte_in, can_write_in};
ghost use Rattle.process.specs.Reservations.{lost_unless};
ghost use Rattle.process.specs.Stored.{IsWritten};

use crate::parts::Parts;
use mach_types::sequences::RSEQ_CS;
use mach_types::{Area, Hart, Outcome, Store, Write};
use rseq_abort::interrupt;

/// Where a thread goes on that was interrupted at a pc.
pub fn pc_after(pc: u64, outcome: Outcome) -> u64
    ensures { result ≡ pc_after pc outcome }
{
    match outcome {
        Outcome::Aborted(at) => at,
        Outcome::Nothing | Outcome::Cleared | Outcome::Killed(_) => pc,
    }
}

/// The write by which the pointer of an area becomes 0.
pub(crate) fn pointer_cleared(area: Area) -> Write
    requires { area.at + RSEQ_CS < 2 ^ 64 }
    ensures { areas.pointer_cleared (Some area) ≡ result ∷ [] }
{
    Write::Stored(Store {
        at: area.at + RSEQ_CS,
        size: 8,
        value: 0,
    })
}

impl Parts {
    /// The other harts than one lose their reservations of the pointer of an area, where an interruption cleared it.
    fn lose_pointer(&mut self, hart: Hart, area: Option<Area>, outcome: Outcome)
        requires { areas.writes_of area outcome ≢ [] → IfSome area (λ a. a.at + RSEQ_CS < 2 ^ 64) }
        ensures harts { (k : ℕ) → slice_get self.new.harts.items k
            ≡ option_map (lost_unless (k == hart.0) (areas.writes_of area outcome))
            (slice_get self.old.harts.items k) }
        ensures pages { self.new.pages ≡ self.old.pages }
        ensures kernel { self.new.kernel ≡ self.old.kernel }
        ensures ended { self.new.ended ≡ self.old.ended }
    {
        match (area, outcome) {
            (Some(area), Outcome::Cleared | Outcome::Aborted(_)) => {
                self.lose(hart, &[pointer_cleared(area)]);
            }
            _ => {}
        }
    }

    /// A thread of a hart with this area is interrupted at a pc: its pointer becomes 0 where it has one.
    pub(crate) fn interrupted(&mut self, hart: Hart, area: Option<Area>, pc: u64) -> Outcome
        ensures outcome { result
            ≡ interruption (byte_in self.old.pages) (can_write_in self.old.pages) area pc }
        ensures pages { IsWritten (areas.writes_of area result) self.old.pages self.new.pages }
        ensures writable { (a : ℕ) → can_write_in self.new.pages a ≡ can_write_in self.old.pages a }
        ensures harts { (k : ℕ) → slice_get self.new.harts.items k
            ≡ option_map (lost_unless (k == hart.0) (areas.writes_of area result))
            (slice_get self.old.harts.items k) }
        ensures kernel { self.new.kernel ≡ self.old.kernel }
        ensures ended { self.new.ended ≡ self.old.ended }
    {
        let outcome = interrupt(&mut self.pages, area, pc);
        self.lose_pointer(hart, area, outcome);
        outcome
    }
}
