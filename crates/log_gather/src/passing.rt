//! A log is gone through on a machine that makes its entries again, and each event is seen.

ghost use Rattle.std.specs.Prelude.{ℕ, ◌≡◌, ◌<◌, ◌+◌, ◌&&◌, Some, not, false, None, if◌then◌else◌};
ghost use Rattle.std.specs.Prelude.{slice_index_or, length, IfOk, IfErr, IfSome, IfNone, is_some};
ghost use Rattle.mach_types.specs.{Bytes.word_at, Events.choice_of, Kernel.Areas.is_inside_named};
ghost use Rattle.mach_types.specs.Limits.{InRange};
ghost use Rattle.mach_types.specs.declared.events.Choice.TheVariants as asked;
ghost use Rattle.mach_types.specs.declared.events.Entry.{Entry};
ghost use Rattle.rv_inst.specs.Class as class;
ghost use Rattle.elf_load.specs.Images.{IsBootable};
ghost use Rattle.block_model.specs.{Here.view, PlainEvents.is_plain};
ghost use Rattle.block_model.specs.Setting.{Seen, setting_of};
ghost use Rattle.process.specs.Sequences.{looked_at_on, named_on};
ghost use Rattle.block_view.specs.Ledgers as ledgers;
ghost use Rattle.block_view.specs.Passing.{IsDecided, IsMadeAgain};
ghost use Rattle.block_view.specs.Viewing.{IsViewCause};
ghost use Rattle.log_gather.specs.Accesses.{IsAccess, plain_effect_here};
ghost use Rattle.log_gather.specs.Facts.{facts_in};
ghost use Rattle.log_gather.specs.Passing.{IsPassage, IsReadBefore, IsSeen};
ghost use Rattle.log_gather.specs.Passing.{here_on, inside_there, reserved_on};
ghost use Rattle.log_gather.specs.Steps.{facts_seen, reserved_in};

use crate::accesses::{Access, NO_ACCESS, access_of, access_of_drain};
use crate::marks::{Details, Mark};
use crate::steps::{Reservations, Step};
use block_view::{Passed, ViewFault, inside, make_named};
use elf_load::Image;
use mach_types::sequences::RSEQ_CS;
use mach_types::{Area, Entry, Hart, Kind, Limits, Named};
use machine_core::Machine;
use rseq_area::Lookups;
use rv_inst::Effect;
use std::alloc::Global;

/// What was seen of a log.
#[derive(Drop)]
pub(crate) struct Passage {
    /// Its events.
    pub(crate) marks: Vec<Mark>,
    /// What they number.
    pub(crate) details: Details,
    /// Whether the thread on each hart is inside a restartable sequence at its end.
    pub(crate) inside_at_end: [bool; 8],
}

/// What is read of a machine before an event.
#[derive(Clone, Copy, Drop)]
pub(crate) struct Before {
    /// Whether the event is plain.
    plain: bool,
    /// What its access touches; nothing where it isn't plain.
    access: Access,
    /// At which bytes the check of its thread's area looks, where it is plain and the thread has one.
    looked_at: Option<Lookups>,
    /// What its thread's area names.
    named: Named,
    /// Whether no thread runs on its hart.
    idle: bool,
    /// What each hart has reserved.
    reserved: Reservations,
}

impl Before {
    /// Whether the event is plain and moves the pc of its thread out of what the area named, to this one.
    fn moves_out(&self, pc: u64) -> bool
        ensures { result
            ≡ (self.now.plain && (not self.now.idle && not (is_inside_named self.now.named pc))) }
    {
        self.plain && !self.idle && !is_inside_named(&self.named, pc)
    }

    /// The event, as it was then made, where its hart's event before it was of a sequence or wasn't.
    fn step(&self, passed: &Passed, was: bool) -> Step
        ensures facts { (m m' : Seen) (e : Entry) → IsReadBefore m e self.now → IsMadeAgain m m' e passed.now
            → facts_seen result ≡ facts_in (here_on m e.hart.0) was e }
        ensures reserved { result.reserved ≡ self.now.reserved }
        ensures awaits { result.awaits ≡ result.begins }
    {
        let within = is_within(passed, was);
        let begins = is_first(within, was);
        Step {
            entry: passed.entry,
            plain: self.plain,
            inside: passed.inside.is_some(),
            within,
            begins,
            moves_out: self.moves_out(passed.pc),
            access: self.access,
            looked_at: self.looked_at,
            reserved: self.reserved,
            awaits: begins,
        }
    }
}

/// Whether an area names a sequence that a pc is inside.
fn is_inside_named(named: &Named, pc: u64) -> bool
    ensures { result ≡ is_inside_named named.now pc }
{
    match named {
        Named::Good(sequence) => sequence.is_inside(pc),
        Named::Bad(_) | Named::Nothing => false,
    }
}

/// Whether an entry is of a sequence, where its hart's entry before it was of one or wasn't.
fn is_within(passed: &Passed, was: bool) -> bool
    ensures { result ≡ (if was then ledgers.is_more passed.now else ledgers.begins passed.now) }
{
    if was {
        passed.is_taken_in()
    } else {
        passed.begins()
    }
}

/// Whether an entry begins a sequence, where it is of one or isn't, and its hart's entry before it was or
/// wasn't.
fn is_first(within: bool, was: bool) -> bool
    ensures { result ≡ (within && not was) }
{
    within && !was
}

/// Whether an effect is that of ECALL.
fn is_call(effect: &Effect) -> bool
    ensures { result ≡ class.is_call effect.now }
{
    matches!(effect, Effect::Call)
}

/// What each hart of a machine has reserved.
fn reservations(machine: &Machine) -> Reservations
    requires { InRange machine.now.setting.limits }
    ensures each { (k : ℕ) → reserved_in result k ≡ reserved_on machine.now k }
    ensures eight { length result ≡ 8 }
{
    let mut reserved = [None; 8];
    for hart in 0..machine.harts() {
        reserved[hart as usize] = machine.hart(Hart(hart)).reserved;
    }
    reserved
}

/// Whether the thread on each hart of a machine is inside a restartable sequence.
fn inside_of_harts(machine: &Machine) -> [bool; 8]
    requires { InRange machine.now.setting.limits }
    ensures { (k : ℕ) → slice_index_or result k false ≡ inside_there machine.now k }
{
    let mut inside_of = [false; 8];
    for hart in 0..machine.harts() {
        inside_of[hart as usize] = inside(machine, Hart(hart)).is_some();
    }
    inside_of
}

/// The effect of the next instruction of a hart's thread, where it makes neither a fault nor a call.
fn plain_effect(machine: &Machine, hart: Hart) -> Option<Effect>
    requires { hart.0 < machine.now.setting.limits.harts }
    ensures { result ≡ plain_effect_here (here_on machine.now hart.0) }
{
    let effect = machine.next_effect(hart)?;
    if machine.next_fault(hart).is_none() && !is_call(&effect) {
        Some(effect)
    } else {
        None
    }
}

/// What the next instruction of a hart's thread touches; None where it isn't plain.
fn access_of_next(machine: &Machine, hart: Hart) -> Option<Access>
    requires { hart.0 < machine.now.setting.limits.harts }
    ensures plain { is_some result ≡ is_plain asked.Exec (here_on machine.now hart.0) }
    ensures access { IfSome result (IsAccess asked.Exec (here_on machine.now hart.0)) }
{
    let effect = plain_effect(machine, hart)?;
    Some(access_of(&effect, machine.hart(hart).reserved))
}

/// What the event of an entry touches; None where it isn't plain.
fn access_of_entry(machine: &Machine, entry: Entry) -> Option<Access>
    requires { entry.hart.0 < machine.now.setting.limits.harts }
    ensures plain { is_some result ≡ is_plain (choice_of entry) (here_on machine.now entry.hart.0) }
    ensures access { IfSome result (IsAccess (choice_of entry) (here_on machine.now entry.hart.0)) }
{
    match entry.kind {
        Kind::Exec => access_of_next(machine, entry.hart),
        Kind::Drain => Some(access_of_drain(machine.hart(entry.hart).buffer.oldest())),
        _ => None,
    }
}

/// Where the descriptor stands that the area of a hart's thread names, if the pointer to it can be read.
fn pointer_of(machine: &Machine, hart: Hart, area: &Area) -> Option<u64>
    requires { hart.0 < machine.now.setting.limits.harts }
    ensures { IfSome result (λ p. word_at (view (here_on machine.now hart.0)) (area.now.at + RSEQ_CS) 8 ≡ Some p) }
{
    machine.view(hart, area.at.checked_add(RSEQ_CS)?, 8)
}

/// At which bytes the check of the area of a hart's thread looks, where the area names this, which says most of it; None where the thread
/// has no area.
fn looked_at_naming(machine: &Machine, hart: Hart, named: &Named) -> Option<Lookups>
    requires hart { hart.0 < machine.now.setting.limits.harts }
    requires named { named.now ≡ named_on (here_on machine.now hart.0) }
    ensures { result ≡ looked_at_on (here_on machine.now hart.0) }
{
    let area = machine.area(hart)?;
    match *named {
        Named::Nothing => Some(Lookups {
            area: area.at,
            descriptor: None,
            signature: None,
        }),
        Named::Good(sequence) => match pointer_of(machine, hart, &area) {
            Some(pointer) => Some(Lookups {
                area: area.at,
                descriptor: Some(pointer),
                signature: sequence.abort.checked_sub(4),
            }),
            None => machine.looked_at(hart),
        },
        Named::Bad(_) => machine.looked_at(hart),
    }
}

/// At which bytes the check of the area of a hart's thread looks, where the area names this, if this holds and the thread has one.
fn looked_at_if(machine: &Machine, hart: Hart, named: &Named, holds: bool) -> Option<Lookups>
    requires hart { hart.0 < machine.now.setting.limits.harts }
    requires named { named.now ≡ named_on (here_on machine.now hart.0) }
    ensures { result ≡ (if holds then looked_at_on (here_on machine.now hart.0) else None) }
{
    if holds {
        looked_at_naming(machine, hart, named)
    } else {
        None
    }
}

/// What is read of a machine before it makes an entry.
fn read_before(machine: &Machine, entry: Entry) -> Before
    requires limits { InRange machine.now.setting.limits }
    requires hart { entry.hart.0 < machine.now.setting.limits.harts }
    ensures { IsReadBefore machine.now entry result }
{
    let hart = entry.hart;
    let access = access_of_entry(machine, entry);
    let plain = access.is_some();
    let named = machine.named(hart);
    Before {
        plain,
        access: access.unwrap_or(NO_ACCESS),
        looked_at: looked_at_if(machine, hart, &named, plain),
        named,
        idle: machine.hart(hart).is_idle(),
        reserved: reservations(machine),
    }
}

/// Makes an entry of one of so many harts again, and sees it, where its hart's entry before it was of a
/// sequence or wasn't; None where it isn't the one that is decided.
fn see(machine: &mut Machine, harts: u8, entry: Entry, was: bool) -> Option<Step>
    requires limits { InRange machine.old.setting.limits }
    requires harts { harts ≡ machine.old.setting.limits.harts }
    ensures made { IfSome result (IsSeen machine.old machine.new entry was) }
    ensures refused { IfNone result (IsDecided machine.old entry → ⊥) }
{
    if entry.hart.0 >= harts {
        return None;
    }
    let before = read_before(machine, entry);
    let passed = make_named(machine, entry, &before.named)?;
    Some(before.step(&passed, was))
}

/// Whether this is set for a hart; false where there is no such hart.
fn is_set(harts: &[bool; 8], hart: Hart) -> bool
    ensures { result ≡ slice_index_or harts.now hart.0 false }
{
    match harts.get(usize::from(hart.0)) {
        Some(set) => *set,
        None => false,
    }
}

/// The seed of a run that draws no choice.
const NO_SEED: u64 = 0;

/// What is seen of a log of an image under limits, which is gone through once.
///
/// Refused with the number of the first entry that isn't allowed at its place; else it errs only for want of
/// memory.
pub(crate) fn pass(
    alloc: Global,
    image: &Image,
    limits: &Limits,
    log: &[Entry],
) -> Result<Passage, ViewFault>
    requires image { IsBootable limits.now.frames image.now }
    requires limits { InRange limits.now }
    ensures passage { IfOk result (IsPassage (setting_of image.now limits.now) log.now) }
    ensures cause { IfErr result (IsViewCause (setting_of image.now limits.now) log.now) }
{
    let mut machine = Machine::boot(alloc, image, *limits, NO_SEED)?;
    let mut marks = Vec::new(alloc);
    let mut details = Details::new(alloc);
    let mut within = [false; 8];
    for entry in log {
        let number = machine.log().len() as u32 + 1;
        let was = is_set(&within, entry.hart);
        let Some(step) = see(&mut machine, limits.harts, *entry, was) else {
            return Err(ViewFault::NotARun(number));
        };
        within[entry.hart.0 as usize] = step.within;
        details.add(&mut marks, &step)?;
    }
    let inside_at_end = inside_of_harts(&machine);
    Ok(Passage {
        marks,
        details,
        inside_at_end,
    })
}
