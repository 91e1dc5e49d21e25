//! The events of a log as they are moved: what is large of an event stays where it is, and a mark has its number.

ghost use Rattle.std.specs.Prelude.{◌≡◌, ◌<◌, ◌||◌, not, true, IfOk, None, length, slice_index_or};
ghost use Rattle.mach_types.specs.Events as events;
ghost use Rattle.log_gather.specs.Accesses.{bytes_in};
ghost use Rattle.log_gather.specs.Facts as facts;
ghost use Rattle.log_gather.specs.LogEvents.{held_by};
ghost use Rattle.log_gather.specs.Marks as marks;
ghost use Rattle.log_gather.specs.Marks.{IsAdded, IsMarked, IsNumbered, IsRenewed, are_known, leaves_reserved, reserved_by};

use crate::accesses::{Access, NO_ACCESS, Range};
use crate::steps::{Reservations, Step};
use mach_types::{Entry, Hart, Kind, Tid};
use rseq_area::Lookups;
use std::alloc::{AllocError, Global};

/// The greatest number of a detail.
const MOST_NUMBER: usize = 4_294_967_295;

/// What events have in common: each is kept once, or a few times, and has a number.
#[derive(Drop)]
pub(crate) struct Details {
    /// What accesses touch.
    pub(crate) accesses: Vec<Access>,
    /// At which bytes the check of an area looks.
    pub(crate) looked_at: Vec<Option<Lookups>>,
    /// What each hart has reserved.
    pub(crate) reserved: Vec<Reservations>,
    /// The number of the bytes at which was looked last on each hart.
    pub(crate) last: [u32; 8],
}

/// An event of a log.
#[derive(Clone, Copy, Drop)]
pub(crate) struct Mark {
    /// The pc of its entry.
    pub(crate) pc: u64,
    /// The thread of its entry.
    pub(crate) tid: Tid,
    /// The number of what its access touches.
    pub(crate) access: u32,
    /// The number of the bytes at which the check of its thread's area looks.
    pub(crate) looked_at: u32,
    /// The number of what each hart has reserved before it.
    pub(crate) reserved: u32,
    /// The hart of its entry.
    pub(crate) hart: Hart,
    /// The kind of its entry.
    pub(crate) kind: Kind,
    /// Whether it is plain.
    pub(crate) plain: bool,
    /// Whether the thread on its hart is inside a restartable sequence before it.
    pub(crate) inside: bool,
    /// Whether it is of a restartable sequence.
    pub(crate) within: bool,
    /// Whether it is the first of one.
    pub(crate) begins: bool,
    /// Whether it moves the pc out of the sequence.
    pub(crate) moves_out: bool,
    /// Whether it is the first of a sequence whose turn is still to come.
    pub(crate) awaits: bool,
}

impl Mark {
    /// Whether it is an event of a hart.
    pub(crate) fn is_of(&self, hart: Hart) -> bool
        ensures { result ≡ facts.is_of hart.0 (marks.entry_marked self.now) }
    {
        self.hart == hart
    }

    /// Its entry.
    pub(crate) fn entry(&self) -> Entry
        ensures { result ≡ marks.entry_marked self.now }
    {
        Entry {
            hart: self.hart,
            kind: self.kind,
            tid: self.tid,
            pc: self.pc,
        }
    }

    /// Whether it is an instruction.
    pub(crate) fn is_instruction(&self) -> bool
        ensures { result ≡ events.is_instruction self.now.kind }
    {
        self.kind.is_instruction()
    }

    /// Puts down what is reserved before it, by its number. Most often nothing else is, and it isn't written.
    fn reserve(&mut self, number: u32)
        ensures { self.new ≡ record self.old { reserved = number } }
    {
        if self.reserved != number {
            self.reserved = number;
        }
    }

    /// Whether it begins an act of its hart: all do but the events of a sequence after its first.
    pub(crate) fn begins_act(&self) -> bool
        ensures { result ≡ (not self.now.within || self.now.begins) }
    {
        !self.within || self.begins
    }
}

impl Details {
    /// None.
    pub(crate) fn new(alloc: Global) -> Details {
        Details {
            accesses: Vec::new(alloc),
            looked_at: Vec::new(alloc),
            reserved: Vec::new(alloc),
            last: [0; 8],
        }
    }

    /// What the access of an event touches.
    pub(crate) fn access(&self, number: u32) -> Access
        ensures { result ≡ slice_index_or self.now.accesses.items number NO_ACCESS }
    {
        match self.accesses.get(number as usize) {
            Some(access) => *access,
            None => NO_ACCESS,
        }
    }

    /// At which bytes the check of an area looks.
    pub(crate) fn looked_at(&self, number: u32) -> Option<Lookups>
        ensures { result ≡ slice_index_or self.now.looked_at.items number None }
    {
        match self.looked_at.get(number as usize) {
            Some(looked_at) => *looked_at,
            None => None,
        }
    }

    /// What each hart has reserved.
    fn reserved(&self, number: u32) -> Reservations
        ensures { result ≡ reserved_by self.now number }
    {
        match self.reserved.get(number as usize) {
            Some(reserved) => *reserved,
            None => [None; 8],
        }
    }

    /// What a hart has reserved, of what each has.
    fn reserved_on(&self, number: u32, hart: Hart) -> Option<u64>
        ensures { result ≡ slice_index_or (reserved_by self.now number) hart.0 None }
    {
        match self.reserved.get(number as usize) {
            Some(reserved) => match reserved.get(usize::from(hart.0)) {
                Some(own) => *own,
                None => None,
            },
            None => None,
        }
    }

    /// The aligned 8 bytes that its hart has reserved before an event of a sequence: the event reads them.
    pub(crate) fn held(&self, mark: &Mark) -> Option<Range>
        ensures { bytes_in result
            ≡ held_by mark.now.within (slice_index_or (reserved_by self.now mark.now.reserved) mark.now.hart.0 None) }
    {
        if !mark.within {
            return None;
        }
        match self.reserved_on(mark.reserved, mark.hart) {
            Some(at) => Some(Range { at, count: 8 }),
            None => None,
        }
    }

    /// The event of a mark.
    fn step_of(&self, mark: &Mark) -> Step
        ensures { result ≡ marks.step_of self.now mark.now }
    {
        Step {
            entry: mark.entry(),
            plain: mark.plain,
            inside: mark.inside,
            within: mark.within,
            begins: mark.begins,
            moves_out: mark.moves_out,
            access: self.access(mark.access),
            looked_at: self.looked_at(mark.looked_at),
            reserved: self.reserved(mark.reserved),
            awaits: mark.awaits,
        }
    }

    /// The mark of an event.
    fn mark(&mut self, step: &Step) -> Result<Mark, AllocError>
        ensures { IfOk result (λ m. IsMarked self.old step.now m self.new) }
    {
        let access = number_access(&mut self.accesses, 0, step.access)?;
        let own = usize::from(step.entry.hart.0 % 8);
        let looked_at = number_looked_at(&mut self.looked_at, self.last[own], step.looked_at)?;
        self.last[own] = looked_at;
        let newest = newest_of(self.reserved.len());
        let reserved = number_reserved(&mut self.reserved, newest, step.reserved)?;
        Ok(Mark {
            pc: step.entry.pc,
            tid: step.entry.tid,
            hart: step.entry.hart,
            kind: step.entry.kind,
            plain: step.plain,
            inside: step.inside,
            within: step.within,
            begins: step.begins,
            moves_out: step.moves_out,
            awaits: step.awaits,
            access,
            looked_at,
            reserved,
        })
    }

    /// Adds the mark of an event.
    pub(crate) fn add(&mut self, marks: &mut Vec<Mark>, step: &Step) -> Result<(), AllocError>
        requires { are_known self.old marks.old.items ≡ true }
        ensures { IfOk result (λ _. IsAdded self.old marks.old.items step.now self.new marks.new.items) }
    {
        let mark = self.mark(step)?;
        marks.push(mark)?;
        Ok(())
    }

    /// Whether what an access does leaves all reservations as they are.
    fn keeps_reserved(&self, number: u32) -> bool
        ensures { result ≡ leaves_reserved (slice_index_or self.now.accesses.items number NO_ACCESS) }
    {
        match self.accesses.get(number as usize) {
            Some(access) => access.entered.is_none() && access.reserves.is_none(),
            None => true,
        }
    }

    /// Puts down what is reserved before a plain event, by its number, and finds the number of what is reserved after it.
    pub(crate) fn renew(&mut self, mark: &mut Mark, number: u32) -> Result<u32, AllocError>
        requires hart { mark.old.hart.0 < 8 }
        requires known { number < length self.old.reserved.items }
        ensures { IfOk result (λ after. IsRenewed self.old mark.old number after self.new mark.new) }
    {
        mark.reserve(number);
        if self.keeps_reserved(mark.access) {
            return Ok(number);
        }
        let mut reserved = self.reserved(number);
        self.step_of(mark).pass(&mut reserved);
        let newest = newest_of(self.reserved.len());
        number_reserved(&mut self.reserved, newest, reserved)
    }
}

/// The number of what an access touches, which may be a likely one. Most touch nothing, as that of the first event of a log.
fn number_access(list: &mut Vec<Access>, likely: u32, access: Access) -> Result<u32, AllocError>
    ensures { IfOk result (λ n. IsNumbered list.old.items access n list.new.items) }
{
    match list.get(likely as usize) {
        Some(kept) if *kept == access => return Ok(likely),
        _ => (),
    }
    let number = number_at(list.len())?;
    list.push(access)?;
    Ok(number)
}

/// The number of the bytes at which the check of an area looks, which may be a likely one: often that of its hart's last event.
fn number_looked_at(
    list: &mut Vec<Option<Lookups>>,
    likely: u32,
    looked_at: Option<Lookups>,
) -> Result<u32, AllocError>
    ensures { IfOk result (λ n. IsNumbered list.old.items looked_at n list.new.items) }
{
    match list.get(likely as usize) {
        Some(kept) if *kept == looked_at => return Ok(likely),
        _ => (),
    }
    let number = number_at(list.len())?;
    list.push(looked_at)?;
    Ok(number)
}

/// The number of what each hart has reserved, which may be a likely one: often the newest.
fn number_reserved(
    list: &mut Vec<Reservations>,
    likely: u32,
    reserved: Reservations,
) -> Result<u32, AllocError>
    ensures { IfOk result (λ n. IsNumbered list.old.items reserved n list.new.items) }
{
    match list.get(likely as usize) {
        Some(kept) if *kept == reserved => return Ok(likely),
        _ => (),
    }
    let number = number_at(list.len())?;
    list.push(reserved)?;
    Ok(number)
}

/// The number of a place. There is no memory for as many places as there are no numbers for.
fn number_at(place: usize) -> Result<u32, AllocError>
    ensures { IfOk result (λ n. n ≡ place) }
{
    if place > MOST_NUMBER {
        return Err(AllocError);
    }
    Ok(place as u32)
}

/// The number of the last of so many places, if there is one; no matter what where there is none, or none has a number.
fn newest_of(places: usize) -> u32 {
    if places > 0 && places <= MOST_NUMBER {
        (places - 1) as u32
    } else {
        0
    }
}
