//! An entry of a log as it is made again, and what is seen of its hart before it and after it.

ghost use Rattle.std.specs.Prelude.{◌≡◌, ◌<◌, ◌≤◌, ◌↔◌, false, Ok, Err, IfOk, IfErr, OnErr, IfSome, IfNone, IsTrue, is_none};
ghost use Rattle.std.specs.Option.{option_map};
ghost use Rattle.mach_types.specs.Limits.{InRange};
ghost use Rattle.block_model.specs.Deciding.{decide, history};
ghost use Rattle.block_model.specs.History.{restart, running};
ghost use Rattle.block_model.specs.Acts.{named_at, takes_in};
ghost use Rattle.mach_types.specs.Events.{is_instruction, is_run};
ghost use Rattle.block_model.specs.Setting.{Seen};
ghost use Rattle.block_view.specs.Acts.{form_alone};
ghost use Rattle.block_view.specs.Ledgers.{begins, is_fatal, is_more, leaves_inside, moves_out, verdict_by};
ghost use Rattle.block_view.specs.Passing.{IsAhead, IsAheadOf, IsDecided, IsMadeAgain, IsMadeBy, inside_at, is_by_signal, would_interrupt};
ghost use Rattle.block_view.specs.declared.turns.Turn.TheVariants.{Begins};

use crate::forms::Form;
use crate::turns::Turn;
use block_model::{Refused, SeqEnd};
use mach_types::{BarrierPart, Choice, End, Entry, Hart, Interruption, Kind, Maker, Named, Seq};
use machine_core::Machine;

/// An entry that was made.
#[derive(Clone, Copy, Drop)]
pub struct Passed {
    /// Its number in the log, counted from 1.
    pub number: u32,
    /// The entry.
    pub entry: Entry,
    /// The sequence that its hart's thread was inside before it, if it was inside one.
    pub inside: Option<Seq>,
    /// Whether it interrupted a thread (rseq(2)).
    pub interrupts: bool,
    /// Whether it ended the process by a signal.
    pub killed: bool,
    /// The pc of its hart's thread after it; 0 where none runs there.
    pub pc: u64,
}

impl Passed {
    /// Its hart's number.
    pub fn hart(&self) -> usize
        ensures { result ≡ self.now.entry.hart.0 }
    {
        usize::from(self.entry.hart.0)
    }

    /// Whether it is an interruption that ended the process.
    pub(crate) fn is_fatal(&self) -> bool
        ensures { result ≡ is_fatal self.now }
    {
        self.interrupts && self.killed
    }

    /// Whether it is an instruction, its fault or its call.
    pub fn executes(&self) -> bool
        ensures { result ≡ is_instruction self.now.entry.kind }
    {
        self.entry.kind.is_instruction()
    }

    /// Whether its thread begins to run by it.
    pub fn runs(&self) -> bool
        ensures { result ≡ is_run self.now.entry.kind }
    {
        self.entry.kind.is_run()
    }

    /// Whether a sequence begins with it, where its hart was in none.
    pub fn begins(&self) -> bool
        ensures { result ≡ begins self.now }
    {
        self.inside.is_some() && self.executes()
    }

    /// The turn by which a sequence begins with it.
    pub(crate) fn beginning(&self) -> Option<Turn>
        ensures { result ≡ option_map Begins self.now.inside }
    {
        match self.inside {
            Some(sequence) => Some(Turn::Begins(sequence)),
            None => None,
        }
    }

    /// Whether the sequence that its hart was in takes it in.
    pub fn is_taken_in(&self) -> bool
        ensures { result ≡ is_more self.now }
    {
        self.inside.is_some() && takes_in(self.entry.kind, self.interrupts)
    }

    /// Whether it preempted its thread inside a sequence.
    pub(crate) fn leaves_inside(&self) -> bool
        ensures { result ≡ leaves_inside self.now }
    {
        self.inside.is_some() && self.entry.kind.is_preempt()
    }

    /// The act that it is by itself.
    pub(crate) fn form_alone(&self) -> Form
        ensures { result ≡ form_alone self.now.entry.kind }
    {
        match self.entry.kind.nature().maker {
            Maker::Thread | Maker::Buffer => Form::Step,
            Maker::Kernel => Form::Kernel,
        }
    }

    /// Whether it moved the pc out of the sequence that its thread was inside before it.
    pub fn moved_out(&self) -> bool
        ensures { result ≡ moves_out self.now }
    {
        match self.inside {
            Some(sequence) => !sequence.is_inside(self.pc),
            None => true,
        }
    }

    /// How a sequence that hangs ends, whose thread begins to run by it. An abort handler lies outside its sequence, so the thread
    /// was sent there where its pc isn't the one that it waited with.
    pub(crate) fn verdict(&self) -> SeqEnd
        ensures { result ≡ verdict_by self.now }
    {
        if self.killed {
            SeqEnd::Dead
        } else if self.pc == self.entry.pc {
            SeqEnd::Dropped
        } else {
            SeqEnd::Cut(self.pc)
        }
    }
}

/// Whether a sequence takes in an event of this kind, before which its thread is inside, and which
/// interrupts a thread or doesn't.
fn takes_in(kind: Kind, interrupts: bool) -> bool
    ensures { result ≡ takes_in kind interrupts }
{
    let nature = kind.nature();
    match nature.maker {
        Maker::Thread | Maker::Buffer => true,
        Maker::Kernel => matches!(nature.barriers, BarrierPart::Takes) && !interrupts,
    }
}

/// The sequence that the thread of a hart is inside, if it is inside one. Where no thread has an area, it is
/// inside none, and nothing else is looked at.
pub fn inside(machine: &Machine, hart: Hart) -> Option<Seq>
    requires { hart.0 < machine.now.setting.limits.harts }
    ensures { result ≡ inside_at machine.now.setting hart.0 (history machine.now.setting machine.now.log) }
{
    if machine.kernel().areas.is_empty() {
        return None;
    }
    inside_named(machine, hart, &machine.named(hart))
}

/// The sequence that the thread of a hart is inside, if it is inside one, where its area names this.
fn inside_named(machine: &Machine, hart: Hart, named: &Named) -> Option<Seq>
    requires hart { hart.0 < machine.now.setting.limits.harts }
    requires named { named.now ≡ named_at machine.now.setting hart.0 (history machine.now.setting machine.now.log) }
    ensures { result ≡ inside_at machine.now.setting hart.0 (history machine.now.setting machine.now.log) }
{
    match *named {
        Named::Good(sequence) if sequence.is_inside(machine.hart(hart).pc) => Some(sequence),
        Named::Good(_) | Named::Bad(_) | Named::Nothing => None,
    }
}

/// Whether an event of this kind would interrupt a thread on a hart.
fn interrupts(machine: &Machine, hart: Hart, kind: Kind) -> bool
    requires { hart.0 < machine.now.setting.limits.harts }
    ensures { result ≡ would_interrupt kind (restart hart.0 (history machine.now.setting machine.now.log))
        (is_none (running machine.now.setting hart.0 (history machine.now.setting machine.now.log))) }
{
    match kind.nature().interruption {
        Interruption::Never => false,
        Interruption::Requested => {
            let state = machine.hart(hart);
            state.restart && !state.is_idle()
        }
        Interruption::Scheduled | Interruption::Signalled => true,
    }
}

/// Whether a signal ended the process, where the run ends so.
fn is_by_signal(end: End) -> bool
    ensures { result ≡ is_by_signal end }
{
    matches!(end, End::Killed(_))
}

/// Whether two entries are the same.
fn is_same(one: Entry, other: Entry) -> bool
    ensures { IsTrue result ↔ (one ≡ other) }
{
    one == other
}

/// Makes an entry; false where it isn't the one that is decided, and then another may have been made.
fn make(machine: &mut Machine, entry: Entry) -> bool
    ensures made { IsTrue result → IsMadeBy machine.old machine.new entry }
    ensures refused { result ≡ false → IsDecided machine.old entry → ⊥ }
{
    match machine.step(entry.hart, entry.choice()) {
        Ok(made) => is_same(made, entry),
        Err(_) => false,
    }
}

/// Makes an entry of one of so many harts again; None where it isn't the one that is decided.
pub(crate) fn make_again(machine: &mut Machine, harts: u8, entry: Entry) -> Option<Passed>
    requires limits { InRange machine.old.setting.limits }
    requires harts { harts ≡ machine.old.setting.limits.harts }
    ensures made { IfSome result (IsMadeAgain machine.old machine.new entry) }
    ensures refused { IfNone result (IsDecided machine.old entry → ⊥) }
{
    if entry.hart.0 >= harts {
        return None;
    }
    let named = machine.named(entry.hart);
    make_named(machine, entry, &named)
}

/// Makes an entry again, where the area of its hart's thread names this; None where it isn't the one that is decided.
pub fn make_named(machine: &mut Machine, entry: Entry, named: &Named) -> Option<Passed>
    requires limits { InRange machine.old.setting.limits }
    requires hart { entry.hart.0 < machine.old.setting.limits.harts }
    requires named { named.now ≡ named_at machine.old.setting entry.hart.0 (history machine.old.setting machine.old.log) }
    ensures made { IfSome result (IsMadeAgain machine.old machine.new entry) }
    ensures refused { IfNone result (IsDecided machine.old entry → ⊥) }
{
    let ahead = named_ahead(machine, entry.hart, entry.kind, named);
    if !make(machine, entry) {
        return None;
    }
    Some(seen_after(machine, entry, ahead))
}

/// What is seen of a hart ahead of an entry.
#[derive(Clone, Copy, Drop)]
pub struct Ahead {
    /// The sequence that its thread is inside, if it is inside one.
    pub inside: Option<Seq>,
    /// Whether the entry would interrupt a thread (rseq(2)).
    pub interrupts: bool,
}

/// What is seen of its hart ahead of an entry, which must be of one of the machine's harts.
pub fn seen_ahead(machine: &Machine, entry: Entry) -> Ahead
    requires { entry.hart.0 < machine.now.setting.limits.harts }
    ensures { IsAhead machine.now entry result }
{
    ahead_of(machine, entry.hart, entry.kind)
}

/// What is seen of a hart ahead of an event of this kind.
pub fn ahead_of(machine: &Machine, hart: Hart, kind: Kind) -> Ahead
    requires { hart.0 < machine.now.setting.limits.harts }
    ensures { IsAheadOf machine.now hart.0 kind result }
{
    Ahead {
        inside: inside(machine, hart),
        interrupts: interrupts(machine, hart, kind),
    }
}

/// The same, where the area of its thread names this.
fn named_ahead(machine: &Machine, hart: Hart, kind: Kind, named: &Named) -> Ahead
    requires hart { hart.0 < machine.now.setting.limits.harts }
    requires named { named.now ≡ named_at machine.now.setting hart.0 (history machine.now.setting machine.now.log) }
    ensures { IsAheadOf machine.now hart.0 kind result }
{
    Ahead {
        inside: inside_named(machine, hart, named),
        interrupts: interrupts(machine, hart, kind),
    }
}

/// Makes an event of a hart as [`Machine::step`] does: what is seen of its entry, or the refusal that is due.
pub fn step_seen(machine: &mut Machine, hart: Hart, choice: Choice) -> Result<Passed, Refused>
    requires limits { InRange machine.old.setting.limits }
    ensures entry { IfOk result (λ passed. decide machine.old.setting (history machine.old.setting machine.old.log) hart.0 choice
        ≡ Ok passed.entry) }
    ensures seen { IfOk result (λ passed. IsMadeAgain machine.old machine.new passed.entry passed) }
    ensures refused { IfErr result (λ why. decide machine.old.setting (history machine.old.setting machine.old.log) hart.0 choice
        ≡ Err why) }
    ensures same { OnErr result (machine.new ≡ machine.old) }
{
    if hart.0 >= machine.harts() {
        return Err(refusal_elsewhere(machine, hart, choice));
    }
    let ahead = ahead_of(machine, hart, choice.kind());
    match machine.step(hart, choice) {
        Ok(entry) => Ok(seen_after(machine, entry, ahead)),
        Err(refused) => Err(refused),
    }
}

/// The refusal of an event of a hart that a machine hasn't.
fn refusal_elsewhere(machine: &Machine, hart: Hart, choice: Choice) -> Refused
    requires { machine.now.setting.limits.harts ≤ hart.0 }
    ensures { decide machine.now.setting (history machine.now.setting machine.now.log) hart.0 choice ≡ Err result }
{
    match machine.answer(hart, choice) {
        Ok(_) => unreachable!(),
        Err(refused) => refused,
    }
}

/// What is seen of an entry that a machine has made last, where this was seen ahead of it. The machine must have made it.
pub fn seen_after(machine: &Machine, entry: Entry, ahead: Ahead) -> Passed
    requires limits { InRange machine.now.setting.limits }
    requires made { (m : Seen) × IsMadeBy m machine.now entry }
    ensures { (m : Seen) → IsMadeBy m machine.now entry → IsAhead m entry ahead
        → IsMadeAgain m machine.now entry result }
{
    Passed {
        number: machine.log().len() as u32,
        entry,
        inside: ahead.inside,
        interrupts: ahead.interrupts,
        killed: is_by_signal(machine.end()),
        pc: machine.hart(entry.hart).pc,
    }
}
