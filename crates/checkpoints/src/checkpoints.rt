//! The checkpoints of a search.

ghost use Rattle.std.specs.Prelude.{◌≡◌, ◌≤◌, ◌<◌, IfNone, IfSome, OnOk, length, take};
ghost use Rattle.std.specs.Bool.{OnTrue};
ghost use Rattle.page_map.specs.Map.{frames_in};
ghost use Rattle.block_model.specs.Run.{IsBlockRun};
ghost use Rattle.block_model.specs.Setting.{Setting};
ghost use Rattle.same_places.specs.Replayed.{StandAfter};
ghost use Rattle.checkpoints.specs.Programs.{IsProgram, setting_for};
ghost use Rattle.checkpoints.specs.Standing.{AreStanding, AreWithin};

use crate::checkpoint::Checkpoint;
use crate::prefixes::common;
use crate::program::Program;
use mach_types::Entry;
use process::{Parts, copies_are_tied};
use same_places::{play_on, replay};
use std::alloc::{AllocError, Global};

/// How many checkpoints there are at most.
const MOST: usize = 10;

/// So many entries are played without a checkpoint among them.
const GAP: usize = 12;

/// The log of the place at which parts were last made to stand, and parts that stand after some of its first entries.
#[derive(Drop)]
pub struct Checkpoints {
    /// The log.
    log: Vec<Entry>,
    /// The checkpoints, and after them parts that stand anywhere.
    slots: Vec<Checkpoint>,
    /// How many of these are checkpoints of the log.
    used: usize,
}

/// Makes parts stand at the end of a log, from the beginning on, where they have as many frames and harts as the limits name. Else it
/// answers false.
fn remake(parts: &mut Parts, program: &Program, log: &[Entry]) -> bool
    requires program { IsProgram program.now }
    requires run { IsBlockRun (setting_for program.now) log.now }
    ensures { OnTrue result (StandAfter (setting_for program.now) log.now parts.new) }
{
    if parts.pages.frames() != program.limits.frames {
        return false;
    }
    if parts.harts.len() != usize::from(program.limits.harts) {
        return false;
    }
    replay(parts, program.code, program.image, program.limits, log);
    true
}

/// Makes a checkpoint of parts, which stand at the end of a log: by a copy, or where the pages differ, by the events of the log.
fn stand_as(slot: &mut Checkpoint, parts: &Parts, program: &Program, log: &[Entry]) -> bool
    requires program { IsProgram program.now }
    requires run { IsBlockRun (setting_for program.now) log.now }
    requires stands { StandAfter (setting_for program.now) log.now parts.now }
    ensures stands { OnTrue result (StandAfter (setting_for program.now) log.now slot.new.parts) }
    ensures length { OnTrue result (slot.new.length ≡ length log.now) }
{
    copies_are_tied();
    if slot.parts.copy_from(parts) {
        slot.length = log.len();
        return true;
    }
    if remake(&mut slot.parts, program, log) {
        slot.length = log.len();
        return true;
    }
    false
}

impl Checkpoints {
    /// No checkpoint yet. There is room for as many as memory has.
    pub fn new(alloc: Global, program: &Program) -> Checkpoints
        requires { IsProgram program.now }
        ensures { (s : Setting) → AreStanding s result }
    {
        let mut slots = Vec::new(alloc);
        for _ in 0..MOST {
            if let Ok(parts) = Parts::boot(alloc, program.image, program.limits) {
                let _ = slots.push(Checkpoint { parts, length: 0 });
            }
        }
        Checkpoints {
            log: Vec::new(alloc),
            slots,
            used: 0,
        }
    }

    /// Makes parts stand where a log has come to: from the last checkpoint on that its entries lead past, or else from the
    /// beginning on. They must have as many frames and harts as the limits name.
    ///
    /// # Errors
    ///
    /// [`AllocError`] where memory runs out: then the parts stand where they stood.
    pub fn stand_after(
        &mut self,
        parts: &mut Parts,
        program: &Program,
        log: &[Entry],
    ) -> Result<(), AllocError>
        requires program { IsProgram program.now }
        requires frames { frames_in parts.old.pages ≡ program.now.limits.frames }
        requires harts { length parts.old.harts.items ≡ program.now.limits.harts }
        requires run { IsBlockRun (setting_for program.now) log.now }
        requires standing { AreStanding (setting_for program.now) self.old }
        ensures stands { OnOk result (StandAfter (setting_for program.now) log.now parts.new) }
        ensures standing { AreStanding (setting_for program.now) self.new }
    {
        self.follow(log)?;
        let from = self.begin(parts, program);
        self.go_on(parts, program, from);
        Ok(())
    }

    /// Takes a log in place of the one before, and keeps the checkpoints that stand after entries of both. There is room for one more
    /// then, if for any.
    fn follow(&mut self, log: &[Entry]) -> Result<(), AllocError>
        ensures log { OnOk result (self.new.log.items ≡ log.now) }
        ensures standing { (s : Setting) → AreStanding s self.old → AreStanding s self.new }
    {
        let same = common(&self.log, log);
        self.used = self.kept_to(same);
        self.log.truncate(same);
        self.log.extend_from_slice(&log[same..])
    }

    /// How many of the checkpoints, from the first one on, stand after no more than so many entries. There is room for one more.
    fn kept_to(&self, same: usize) -> usize
        ensures used { result ≤ self.now.used }
        ensures each { AreWithin self.now.slots.items result same }
    {
        let used = self.used;
        let mut kept = 0;
        while kept < used && kept + 1 < self.slots.len() && self.slots[kept].length <= same {
            kept += 1;
        }
        kept
    }

    /// Makes parts stand as the last checkpoint, and answers after how many entries that is. None where there is no checkpoint,
    /// or its pages aren't those of the parts: then nothing changes.
    fn restore(&self, parts: &mut Parts) -> Option<usize>
        ensures within { IfSome result (λ n. (s : Setting) → AreStanding s self.now → n ≤ length self.now.log.items) }
        ensures stands { IfSome result (λ n. (s : Setting) → AreStanding s self.now
            → StandAfter s (take n self.now.log.items) parts.new) }
        ensures unchanged { IfNone result (parts.new ≡ parts.old) }
    {
        copies_are_tied();
        if self.used == 0 || self.used > self.slots.len() {
            return None;
        }
        let last = &self.slots[self.used - 1];
        if parts.copy_from(&last.parts) {
            Some(last.length)
        } else {
            None
        }
    }

    /// Makes parts stand as the last checkpoint, or else at the beginning, and answers after how many entries that is.
    fn begin(&self, parts: &mut Parts, program: &Program) -> usize
        requires program { IsProgram program.now }
        requires frames { frames_in parts.old.pages ≡ program.now.limits.frames }
        requires harts { length parts.old.harts.items ≡ program.now.limits.harts }
        requires standing { AreStanding (setting_for program.now) self.now }
        requires run { IsBlockRun (setting_for program.now) self.now.log.items }
        ensures within { result ≤ length self.now.log.items }
        ensures stands { StandAfter (setting_for program.now) (take result self.now.log.items) parts.new }
    {
        match self.restore(parts) {
            Some(from) => from,
            None => {
                replay(parts, program.code, program.image, program.limits, &[]);
                0
            }
        }
    }

    /// Keeps a copy of parts, which stand after so many entries of the log, as the last checkpoint, where there is room.
    fn keep(&mut self, parts: &Parts, program: &Program, count: usize)
        requires program { IsProgram program.now }
        requires run { IsBlockRun (setting_for program.now) self.old.log.items }
        requires standing { AreStanding (setting_for program.now) self.old }
        requires within { count ≤ length self.old.log.items }
        requires stands { StandAfter (setting_for program.now) (take count self.old.log.items) parts.now }
        ensures log { self.new.log.items ≡ self.old.log.items }
        ensures standing { AreStanding (setting_for program.now) self.new }
    {
        if self.used >= self.slots.len() {
            return;
        }
        let log = &self.log[..count];
        if stand_as(&mut self.slots[self.used], parts, program, log) {
            self.used += 1;
        }
    }

    /// Plays entries of the log from one place to another, and keeps a checkpoint there.
    fn play_to(&mut self, parts: &mut Parts, program: &Program, from: usize, to: usize)
        requires program { IsProgram program.now }
        requires run { IsBlockRun (setting_for program.now) self.old.log.items }
        requires standing { AreStanding (setting_for program.now) self.old }
        requires order { from ≤ to }
        requires within { to ≤ length self.old.log.items }
        requires stands { StandAfter (setting_for program.now) (take from self.old.log.items) parts.old }
        ensures log { self.new.log.items ≡ self.old.log.items }
        ensures stands { StandAfter (setting_for program.now) (take to self.old.log.items) parts.new }
        ensures standing { AreStanding (setting_for program.now) self.new }
    {
        let log = &self.log[..to];
        play_on(
            parts,
            program.code,
            program.image,
            program.limits,
            log,
            from,
        );
        self.keep(parts, program, to);
    }

    /// Plays on from one place of the log, and keeps checkpoints halfway to its end, halfway from there on, and so on. Answers where the
    /// last one is.
    fn go_halfway(&mut self, parts: &mut Parts, program: &Program, from: usize) -> usize
        requires program { IsProgram program.now }
        requires run { IsBlockRun (setting_for program.now) self.old.log.items }
        requires standing { AreStanding (setting_for program.now) self.old }
        requires within { from ≤ length self.old.log.items }
        requires stands { StandAfter (setting_for program.now) (take from self.old.log.items) parts.old }
        ensures log { self.new.log.items ≡ self.old.log.items }
        ensures within { result ≤ length self.old.log.items }
        ensures stands { StandAfter (setting_for program.now) (take result self.old.log.items) parts.new }
        ensures standing { AreStanding (setting_for program.now) self.new }
    {
        let mut at = from;
        for _ in 0..MOST {
            let left = self.log.len() - at;
            if left <= GAP || self.used.saturating_add(1) >= self.slots.len() {
                return at;
            }
            let next = at + left / 2;
            self.play_to(parts, program, at, next);
            at = next;
        }
        at
    }

    /// Plays the rest of the log, and keeps checkpoints on the way and at the end.
    fn go_on(&mut self, parts: &mut Parts, program: &Program, from: usize)
        requires program { IsProgram program.now }
        requires run { IsBlockRun (setting_for program.now) self.old.log.items }
        requires standing { AreStanding (setting_for program.now) self.old }
        requires within { from ≤ length self.old.log.items }
        requires stands { StandAfter (setting_for program.now) (take from self.old.log.items) parts.old }
        ensures stands { StandAfter (setting_for program.now) self.old.log.items parts.new }
        ensures standing { AreStanding (setting_for program.now) self.new }
    {
        let at = self.go_halfway(parts, program, from);
        let end = self.log.len();
        if at < end {
            self.play_to(parts, program, at, end);
        }
    }
}
