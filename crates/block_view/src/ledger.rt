//! The acts so far, while a log is gone through.

ghost use Rattle.std.specs.Prelude.{◌≡◌, ◌<◌, ◌++◌, [], false, IfOk, IsTrue, OnOk, Some, is_none, length};
ghost use Rattle.std.specs.List.{list_all};
ghost use Rattle.std.specs.Option.{option_map};
ghost use Rattle.block_view.specs.Ledgers.{HasPlaces, act_by, begins, begun, closed, ended_at, going_on, gone_on, hanging_of, hung_or_ended, is_open, is_place, kept_in, noted, nothing_kept, open_from, open_one, settled, settled_act, stopped, stopped_act, taken_in, turn_noted, with_act, with_end_at, with_hanging, without_hanging};
ghost use Rattle.block_view.specs.Following.{IsLetGo};
ghost use Rattle.block_view.specs.declared.turns.Turn.TheVariants.{Ends};

use crate::course::Course;
use crate::forms::{Act, Form};
use crate::passing::Passed;
use crate::turns::Turn;
use block_model::SeqEnd;
use mach_types::{Hart, Tid};
use std::alloc::{AllocError, Global};

/// A sequence that goes on: the newest event of its hart is of it.
#[derive(Clone, Copy, Drop)]
pub(crate) struct Going {
    /// Where its act stands among the acts.
    pub(crate) place: usize,
    /// Its course.
    pub(crate) course: Course,
}

impl Going {
    /// It with one entry more, which it takes in.
    fn gone_on(&self, passed: &Passed) -> Going
        ensures { result ≡ gone_on self.now passed.now }
    {
        Going {
            place: self.place,
            course: self.course.gone_on(passed),
        }
    }
}

/// A sequence that hangs: its thread was preempted inside, and hasn't begun to run since.
#[derive(Clone, Copy, Drop)]
pub(crate) struct Hanging {
    /// The thread.
    pub(crate) tid: Tid,
    /// The hart that it was preempted on.
    pub(crate) hart: Hart,
    /// Where its act stands among the acts.
    pub(crate) place: usize,
}

/// The acts so far. A sequence that has no end yet is listed as unended.
#[derive(Drop)]
pub struct Ledger {
    /// The acts, in the order of their first entries.
    pub(crate) list: Vec<Act>,
    /// The sequence that goes on, of each hart.
    pub(crate) going: Vec<Option<Going>>,
    /// The sequences that hang.
    pub(crate) hanging: Vec<Hanging>,
}

/// No sequence that goes on, of each of so many harts.
fn none_going(alloc: Global, harts: u8) -> Result<Vec<Option<Going>>, AllocError>
    ensures { IfOk result (λ going. going.items ≡ (nothing_kept harts).going) }
{
    let mut going = Vec::new(alloc);
    for _ in 0..harts {
        going.push(None)?;
    }
    Ok(going)
}

/// Whether a place that was found, if one was, is this.
fn is_place(place: usize, found: Option<usize>) -> bool
    ensures { result ≡ is_place place found }
{
    match found {
        Some(at) => at == place,
        None => false,
    }
}

/// The turn by which a sequence ends, if one does.
fn ending(act: Option<Act>) -> Option<Turn>
    ensures { result ≡ option_map Ends act }
{
    match act {
        Some(act) => Some(Turn::Ends(act)),
        None => None,
    }
}

impl Ledger {
    /// That of a log with no entries, on so many harts.
    pub(crate) fn empty(alloc: Global, harts: u8) -> Result<Ledger, AllocError>
        ensures { IfOk result (λ ledger. kept_in ledger ≡ nothing_kept harts) }
    {
        Ok(Ledger {
            list: Vec::new(alloc),
            going: none_going(alloc, harts)?,
            hanging: Vec::new(alloc),
        })
    }

    /// Takes one entry more, and answers what it makes of the sequences.
    pub(crate) fn note(&mut self, passed: &Passed) -> Result<Option<Turn>, AllocError>
        requires hart { passed.now.entry.hart.0 < length self.old.going.items }
        requires places { HasPlaces (kept_in self.old) }
        ensures noted { OnOk result (kept_in self.new ≡ noted passed.now (kept_in self.old)) }
        ensures turn { IfOk result (λ turn. turn ≡ turn_noted passed.now (kept_in self.old)) }
    {
        let going = self.going[passed.hart()];
        let settled = self.settle(passed);
        match going {
            Some(going) if passed.is_taken_in() => {
                self.go_on(going, passed);
                Ok(None)
            }
            Some(going) => {
                let stopped = self.stop(going, passed)?;
                self.add(passed, passed.form_alone())?;
                Ok(ending(stopped))
            }
            None if passed.begins() => {
                self.begin(passed)?;
                Ok(passed.beginning())
            }
            None => {
                self.add(passed, passed.form_alone())?;
                Ok(ending(settled))
            }
        }
    }

    /// Adds an act that begins with this entry.
    fn add(&mut self, passed: &Passed, form: Form) -> Result<(), AllocError>
        ensures { OnOk result (kept_in self.new ≡ with_act (act_by passed.now form) (kept_in self.old)) }
    {
        self.list.push(Act {
            hart: passed.entry.hart,
            first: passed.number,
            last: passed.number,
            tid: passed.entry.tid,
            form,
        })?;
        Ok(())
    }

    /// Begins a sequence with this entry.
    fn begin(&mut self, passed: &Passed) -> Result<(), AllocError>
        requires { passed.now.entry.hart.0 < length self.old.going.items }
        ensures { OnOk result (kept_in self.new ≡ begun passed.now (kept_in self.old)) }
    {
        let place = self.list.len();
        self.add(passed, Form::Sequence(SeqEnd::Unended))?;
        self.going[passed.hart()] = Some(Going {
            place,
            course: Course::of(passed),
        });
        Ok(())
    }

    /// A sequence takes in this entry.
    fn go_on(&mut self, going: Going, passed: &Passed)
        requires hart { passed.now.entry.hart.0 < length self.old.going.items }
        requires place { going.place < length self.old.list.items }
        ensures { kept_in self.new ≡ taken_in going passed.now (kept_in self.old) }
    {
        self.list[going.place].last = passed.number;
        self.going[passed.hart()] = Some(going.gone_on(passed));
    }

    /// A sequence goes on no longer: it hangs where its thread is preempted inside, and else ends with this entry. Answers its act
    /// where it ends.
    fn stop(&mut self, going: Going, passed: &Passed) -> Result<Option<Act>, AllocError>
        requires hart { passed.now.entry.hart.0 < length self.old.going.items }
        requires place { going.place < length self.old.list.items }
        ensures stopped { OnOk result (kept_in self.new ≡ stopped going passed.now (kept_in self.old)) }
        ensures act { IfOk result (λ act. act ≡ stopped_act going passed.now (kept_in self.old)) }
    {
        let ended = self.hang_or_end(going, passed)?;
        self.going[passed.hart()] = None;
        Ok(ended)
    }

    /// A sequence hangs where its thread is preempted inside, and else ends with this entry. Answers its act where it ends.
    fn hang_or_end(&mut self, going: Going, passed: &Passed) -> Result<Option<Act>, AllocError>
        requires { going.place < length self.old.list.items }
        ensures kept { OnOk result (kept_in self.new ≡ hung_or_ended going passed.now (kept_in self.old)) }
        ensures act { IfOk result (λ act. act ≡ stopped_act going passed.now (kept_in self.old)) }
    {
        if passed.leaves_inside() {
            self.hanging.push(Hanging {
                tid: passed.entry.tid,
                hart: passed.entry.hart,
                place: going.place,
            })?;
            return Ok(None);
        }
        Ok(Some(self.end_at(going.place, going.course.end_before(passed))))
    }

    /// The sequence whose act stands at a place ends. Answers its act.
    fn end_at(&mut self, place: usize, end: SeqEnd) -> Act
        requires { place < length self.old.list.items }
        ensures kept { kept_in self.new ≡ with_end_at place end (kept_in self.old) }
        ensures act { Some result ≡ ended_at place end (kept_in self.old) }
    {
        self.list[place].form = Form::Sequence(end);
        self.list[place]
    }

    /// Ends the sequence that hangs of the thread that begins to run by this entry, if it does and one hangs, and answers its act.
    fn settle(&mut self, passed: &Passed) -> Option<Act>
        requires { HasPlaces (kept_in self.old) }
        ensures settled { kept_in self.new ≡ settled passed.now (kept_in self.old) }
        ensures act { result ≡ settled_act passed.now (kept_in self.old) }
    {
        if !passed.runs() {
            return None;
        }
        let tid = passed.entry.tid;
        let Some(place) = self.place_of_hanging(tid) else {
            return None;
        };
        let ended = self.end_at(place, passed.verdict());
        self.forget(tid);
        Some(ended)
    }

    /// No sequence of a thread hangs any more.
    fn forget(&mut self, tid: Tid)
        ensures { kept_in self.new ≡ without_hanging tid (kept_in self.old) }
    {
        self.hanging.retain(|hanging| hanging.tid != tid);
    }

    /// Where the act of the sequence of a thread stands that hangs.
    fn place_of_hanging(&self, tid: Tid) -> Option<usize>
        ensures { result ≡ option_map (λ x. x.place) (hanging_of (kept_in self.now) tid) }
    {
        for hanging in &self.hanging {
            if hanging.tid == tid {
                return Some(hanging.place);
            }
        }
        None
    }

    /// Where the act of the sequence stands that goes on on a hart.
    fn place_of_going(&self, hart: Hart) -> Option<usize>
        ensures { result ≡ option_map (λ g. g.place) (going_on (kept_in self.now) hart.0) }
    {
        let index = usize::from(hart.0);
        if index >= self.going.len() {
            return None;
        }
        match self.going[index] {
            Some(going) => Some(going.place),
            None => None,
        }
    }

    /// Whether an act at a place is that of a sequence which goes on or hangs.
    fn is_open(&self, place: usize, act: &Act) -> bool
        ensures { result ≡ is_open (kept_in self.now) place act.now }
    {
        is_place(place, self.place_of_going(act.hart))
            || is_place(place, self.place_of_hanging(act.tid))
    }

    /// The acts of the sequences that go on or hang, in the order of their first entries.
    pub(crate) fn open_acts(&self, alloc: Global) -> Result<Vec<Act>, AllocError>
        ensures { IfOk result (λ acts. acts.items ≡ open_from (kept_in self.now) 0 self.now.list.items) }
    {
        let mut acts = Vec::new(alloc);
        for place in 0..self.list.len() {
            self.tell_if_open(&mut acts, place, self.list[place])?;
        }
        Ok(acts)
    }

    /// Adds an act at a place to others, where it is that of a sequence which goes on or hangs.
    fn tell_if_open(&self, acts: &mut Vec<Act>, place: usize, act: Act) -> Result<(), AllocError>
        ensures { OnOk result (acts.new.items ≡ acts.old.items ++ open_one (kept_in self.now) place act) }
    {
        if !self.is_open(place, &act) {
            return Ok(());
        }
        acts.push(act)?;
        Ok(())
    }

    /// Whether no sequence goes on.
    fn none_goes_on(&self) -> bool
        ensures { result ≡ list_all is_none self.now.going.items }
    {
        for going in &self.going {
            if going.is_some() {
                return false;
            }
        }
        true
    }

    /// Lets go of the acts where no sequence goes on or hangs.
    pub(crate) fn let_go(&mut self)
        ensures { IsLetGo (kept_in self.old) (kept_in self.new) }
    {
        if self.hanging.is_empty() && self.none_goes_on() {
            self.list.clear();
        }
    }

    /// Whether an entry makes nothing of the sequences: no act is kept, so none goes on or hangs, and none begins with it.
    pub(crate) fn passes_by(&self, passed: &Passed) -> bool
        ensures empty { IsTrue result → self.now.list.items ≡ [] }
        ensures other { IsTrue result → begins passed.now ≡ false }
    {
        self.list.is_empty() && !passed.begins()
    }

    /// Ends the sequence of a hart that goes on where the log ends.
    pub(crate) fn close(&mut self, hart: Hart, inside: bool)
        requires hart { hart.0 < length self.old.going.items }
        requires places { HasPlaces (kept_in self.old) }
        ensures { kept_in self.new ≡ closed hart.0 inside (kept_in self.old) }
    {
        if let Some(going) = self.going[usize::from(hart.0)] {
            self.end_at(going.place, going.course.end_so_far(inside));
        }
    }
}
