//! Whether the events of a span disturb a sequence.

ghost use Rattle.std.specs.Prelude.{◌≡◌, [], IfOk, map};
ghost use Rattle.std.specs.List.{list_any};
ghost use Rattle.log_gather.specs.ByteSets.{HasLookedAt, HasTouched, IsBounded, IsReady, IsTouched};
ghost use Rattle.log_gather.specs.ByteSets.{any_in, clashes_in, disturbs, holds};
ghost use Rattle.log_gather.specs.LogEvents as events;
ghost use Rattle.log_gather.specs.Marks.{step_of, steps_of};
ghost use Rattle.log_gather.specs.Turns.{event_of, own_steps};

use crate::byte_sets::ByteSet;
use crate::marks::{Details, Mark};
use mach_types::Hart;
use rseq_area::Lookups;
use std::alloc::{AllocError, Global};

/// The bytes that the events of a sequence touch.
#[derive(Drop)]
pub(crate) struct Touched {
    pub(crate) reads: ByteSet,
    pub(crate) writes: ByteSet,
    /// At which bytes the check of an area looked last; they are among those read.
    pub(crate) last: Option<Lookups>,
}

impl Touched {
    /// What no event touches.
    fn new(alloc: Global) -> Touched
        ensures { IsTouched [] result }
    {
        Touched {
            reads: ByteSet::new(alloc),
            writes: ByteSet::new(alloc),
            last: None,
        }
    }

    /// Adds the bytes at which the check of an area looks, if there is one: they are there, if it looked at the same bytes last.
    fn add_looked_at(&mut self, looked_at: Option<Lookups>) -> Result<(), AllocError>
        requires { IsReady self.old }
        ensures { IfOk result (λ _. HasLookedAt self.old looked_at self.new) }
    {
        let Some(looked_at) = looked_at else {
            return Ok(());
        };
        if self.last == Some(looked_at) {
            return Ok(());
        }
        self.reads.add_looked_at(&looked_at)?;
        self.last = Some(looked_at);
        Ok(())
    }

    /// Adds what an event touches.
    fn add(&mut self, details: &Details, mark: &Mark) -> Result<(), AllocError>
        requires { IsReady self.old }
        ensures { IfOk result (λ _. HasTouched self.old (event_of (step_of details.now mark.now)) self.new) }
    {
        let access = details.access(mark.access);
        self.add_looked_at(details.looked_at(mark.looked_at))?;
        self.reads.add_range(access.reads)?;
        self.reads.add_range(details.held(mark))?;
        self.writes.add_range(access.writes)?;
        Ok(())
    }

    /// What the events of a hart touch in a span.
    fn of(
        alloc: Global,
        details: &Details,
        span: &[Mark],
        hart: Hart,
    ) -> Result<Touched, AllocError>
        ensures { IfOk result (λ t. IsTouched (map event_of (own_steps hart.0 (steps_of details.now span.now))) t) }
    {
        let mut touched = Touched::new(alloc);
        for mark in span {
            if mark.is_of(hart) {
                touched.add(details, mark)?;
            }
        }
        Ok(touched)
    }

    /// Whether an event touches what is written, or writes what is read.
    fn clashes(&self, details: &Details, mark: &Mark) -> bool
        requires { IsReady self.now }
        ensures { result ≡ clashes_in self.now (event_of (step_of details.now mark.now)) }
    {
        let access = details.access(mark.access);
        self.reads.has_range(access.writes)
            || self.writes.has_range(access.writes)
            || reads_any(&self.writes, details, mark)
    }

    /// Whether an event in a span isn't plain, or is one of another hart that does.
    fn is_disturbed(&self, details: &Details, span: &[Mark], hart: Hart) -> bool
        requires { IsReady self.now }
        ensures { result ≡ list_any (disturbs self.now hart.0) (map event_of (steps_of details.now span.now)) }
    {
        for mark in span {
            if !mark.plain || !mark.is_of(hart) && self.clashes(details, mark) {
                return true;
            }
        }
        false
    }
}

/// Whether an event reads one of these bytes.
fn reads_any(bytes: &ByteSet, details: &Details, mark: &Mark) -> bool
    requires { IsBounded bytes.now }
    ensures { result ≡ any_in (holds bytes.now) (events.reads_of (event_of (step_of details.now mark.now))) }
{
    bytes.has_range(details.access(mark.access).reads)
        || details
            .looked_at(mark.looked_at)
            .is_some_and(|looked_at| bytes.has_looked_at(&looked_at))
        || bytes.has_range(details.held(mark))
}

/// Whether all events of a span are plain, and none of another hart clashes with one of this hart.
pub(crate) fn is_undisturbed(
    alloc: Global,
    details: &Details,
    span: &[Mark],
    hart: Hart,
) -> Result<bool, AllocError>
    ensures { IfOk result (λ b. b ≡ events.is_undisturbed hart.0 (map event_of (steps_of details.now span.now))) }
{
    let touched = Touched::of(alloc, details, span, hart)?;
    Ok(!touched.is_disturbed(details, span, hart))
}
