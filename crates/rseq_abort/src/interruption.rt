//! What an interruption comes to.

ghost use Rattle.std.specs.Prelude.{◌≡◌, ℕ, [], if◌then◌else◌, not, Some};
ghost use Rattle.mach_types.specs.Bytes.{after_writes};
ghost use Rattle.mach_types.specs.Kernel.Areas as areas;
ghost use Rattle.mach_types.specs.Kernel.Areas.{interruption, is_inside, outcome_of, pointer_cleared, writes_of};

use mach_types::sequences::RSEQ_CS;
use mach_types::{Area, BadWhy, Named, Outcome, Seq, UserMem};
use rseq_area::named;

/// Interrupts a thread at a pc, with the area that is registered for it (rseq(2)).
///
/// `Nothing` where it has no area or the area names nothing: nothing is written. `Killed` where what the area
/// names is bad, or else its pointer can't be written: nothing is written, and the process is to be killed.
/// Else the pointer becomes 0, with no other write; `Aborted` has the address at which a thread that was
/// inside goes on, and `Cleared` says that it was outside and goes on at its pc.
pub fn interrupt<M: UserMem>(mem: &mut M, area: Option<Area>, pc: u64) -> Outcome
    ensures outcome { result ≡ interruption (M.byte mem.old) (M.can_write mem.old) area pc }
    ensures bytes { (a : ℕ) → M.byte mem.new a ≡ after_writes (writes_of area result) (M.byte mem.old) a }
    ensures permissions { (a : ℕ) → M.can_write mem.new a ≡ M.can_write mem.old a }
    ensures alike { M.IsAlike mem.old mem.new }
{
    match area {
        Some(area) => {
            let found = named(mem, &area, pc);
            interrupt_named(mem, &area, pc, found)
        }
        None => Outcome::Nothing,
    }
}

/// What [`interrupt`] of a thread at a pc would answer, with the area that is registered for it. Nothing is written.
pub fn foreseen<M: UserMem>(mem: &M, area: Option<Area>, pc: u64) -> Outcome
    ensures { result ≡ interruption (M.byte mem.now) (M.can_write mem.now) area pc }
{
    let Some(area) = area else {
        return Outcome::Nothing;
    };
    let found = named(mem, &area, pc);
    foreseen_named(mem, &area, pc, found)
}

/// Interrupts a thread at a pc whose area names this.
fn interrupt_named<M: UserMem>(mem: &mut M, area: &Area, pc: u64, found: Named) -> Outcome
    ensures outcome { result ≡ outcome_of (M.can_write mem.old) area.now pc found }
    ensures bytes { (a : ℕ)
        → M.byte mem.new a ≡ after_writes (writes_of (Some area.now) result) (M.byte mem.old) a }
    ensures permissions { (a : ℕ) → M.can_write mem.new a ≡ M.can_write mem.old a }
    ensures alike { M.IsAlike mem.old mem.new }
{
    match found {
        Named::Nothing => Outcome::Nothing,
        Named::Bad(why) => Outcome::Killed(why),
        Named::Good(sequence) => outcome_in(sequence, pc, clear_pointer(mem, area)),
    }
}

/// What the interruption of a thread at a pc whose area names this comes to. Nothing is written.
fn foreseen_named<M: UserMem>(mem: &M, area: &Area, pc: u64, found: Named) -> Outcome
    ensures { result ≡ outcome_of (M.can_write mem.now) area.now pc found }
{
    match found {
        Named::Nothing => Outcome::Nothing,
        Named::Bad(why) => Outcome::Killed(why),
        Named::Good(sequence) => outcome_in(sequence, pc, is_clearable(mem, area)),
    }
}

/// What comes of a thread at a pc whose area names this sequence, where the area's pointer is cleared, or can't be.
fn outcome_in(sequence: Seq, pc: u64, cleared: bool) -> Outcome
    ensures { result ≡ (if not cleared then Outcome.Killed BadWhy.AreaBytes
        else if is_inside sequence pc then Outcome.Aborted sequence.abort else Outcome.Cleared) }
{
    if !cleared {
        Outcome::Killed(BadWhy::AreaBytes)
    } else if sequence.is_inside(pc) {
        Outcome::Aborted(sequence.abort)
    } else {
        Outcome::Cleared
    }
}

/// Whether the pointer of an area can be written.
fn is_clearable<M: UserMem>(mem: &M, area: &Area) -> bool
    ensures { result ≡ areas.is_clearable (M.can_write mem.now) area.now }
{
    match area.at.checked_add(RSEQ_CS) {
        Some(pointer) => mem.writable(pointer, 8),
        None => false,
    }
}

/// Lets an area name nothing; false exactly where its pointer can't be written, and then nothing changes.
fn clear_pointer<M: UserMem>(mem: &mut M, area: &Area) -> bool
    ensures answer { result ≡ areas.is_clearable (M.can_write mem.old) area.now }
    ensures bytes { (a : ℕ) →
        let writes = if result then pointer_cleared (Some area.now) else [] in
        M.byte mem.new a ≡ after_writes writes (M.byte mem.old) a }
    ensures permissions { (a : ℕ) → M.can_write mem.new a ≡ M.can_write mem.old a }
    ensures alike { M.IsAlike mem.old mem.new }
{
    match area.at.checked_add(RSEQ_CS) {
        Some(pointer) => mem.set(pointer, 8, 0),
        None => false,
    }
}
