//! The search.

ghost use Rattle.std.specs.Prelude.{◌≡◌, ◌≢◌, ◌≤◌, ◌<◌, ◌+◌, ℕ, true, length, IfOk, IfSome, None, Some};
ghost use Rattle.mach_types.specs.Limits.{InRange};
ghost use Rattle.elf_load.specs.Images.{IsBootable};
ghost use Rattle.block_model.specs.Setting.{setting_of};
ghost use Rattle.found_outcomes.specs.Reduced.{IsSearchBy};
ghost use Rattle.found_outcomes.specs.declared.findings.Closing.TheVariants.{Complete, Deep, Memory, Places, Within};
ghost use Rattle.place_search.specs.Graphs.{IsWhole};
ghost use Rattle.place_search.specs.Logs.{logs_of};
ghost use Rattle.settled_places.specs.Budgets.{IsSettledSearchWithin, preempt_cost};
ghost use Rattle.settled_places.specs.SettledSearch.{IsSettledSearch};
ghost use Rattle.place_search.specs.SettlingSteps.{all_or_none, none_private};
ghost use Rattle.place_search.specs.Searching.{IsSearching, IsTask, reductions_of, setting_for, ways_of};
ghost use Rattle.place_search.specs.Visiting.{AreEndsFound};

use crate::endings::Endings;
use crate::graph::Graph;
use crate::keys::key_of;
use crate::remade::Remade;
use crate::saying::{say_progress, say_stop};
use crate::task::Task;
use crate::trying::Searcher;
use crate::visited::Visited;
use elf_load::Image;
use found_outcomes::{Closing, Findings};
use mach_types::Limits;
use outside::Sink;
use search_reductions::{Reductions, Signals};
use settled_places::{settled_searches_are_complete, settled_searches_within_budgets_are_complete};
use std::alloc::{AllocError, Global};

/// The same number, of which a clause says that it is one of a byte.
fn as_byte(number: u8) -> u8
    ensures same { result ≡ number }
    ensures byte { result < 256 }
{
    number
}

impl Searcher {
    /// At the first place.
    fn start(task: &Task) -> Result<Searcher, AllocError>
        requires { IsTask task.now }
        ensures searching { IfOk result (IsSearching task.now) }
        ensures ends { IfOk result (λ x. AreEndsFound (setting_for task.now) x.visited) }
    {
        let mut made = Remade::boot(task.alloc, task.image, task.limits)?;
        let mut checkpoints = made.checkpoints(task.alloc, task.image, task.limits);
        made.stand_after(task.image, task.limits, &[], &mut checkpoints)?;
        let mut visited = Visited::first(task.alloc);
        visited.note(task.alloc, &made.parts, &[])?;
        let key = key_of(task.alloc, &made.parts, 0, &made.start)?;
        visited.keys.put(task.alloc, &key, 0)?;
        Ok(Searcher {
            visited,
            graph: Graph::new(task.alloc),
            made,
            moved: true,
            checkpoints,
        })
    }

    /// Expands one place after the other, those that are visited meanwhile too, and answers why it ends: None where an event may
    /// reach a thread that has settled.
    fn run<K: Sink>(&mut self, task: &Task, sink: &K) -> Option<Closing>
        requires task { IsTask task.now }
        requires searching { IsSearching task.now self.old }
        requires ends { AreEndsFound (setting_for task.now) self.old.visited }
        ensures searching { IsSearching task.now self.new }
        ensures searched { result ≡ Some Closing.Complete → IsSettledSearch (setting_for task.now) task.now.signals (all_or_none (ways_of task.now))
            none_private (logs_of self.new.visited.rows.items) }
        ensures within { (p : ℕ) → result ≡ Some (Closing.Within p) → (task.now.preemptions ≡ Some p) × (p < 256)
            × IsSettledSearchWithin (setting_for task.now) task.now.signals (all_or_none (ways_of task.now)) none_private preempt_cost p
            (logs_of self.new.visited.rows.items) }
        ensures whole { result ≡ Some Closing.Complete → IsWhole (setting_for task.now) (ways_of task.now)
            (logs_of self.new.visited.rows.items) self.new.graph }
        ensures ends { result ≢ Some Closing.Memory → AreEndsFound (setting_for task.now) self.new.visited }
        ensures full { result ≡ Some Closing.Places → length self.new.visited.rows.items + 1 ≡ task.now.most }
        ensures deep { result ≡ Some Closing.Deep → self.new.visited.deep ≡ true }
        ensures none { result ≡ None → task.now.settle ≡ true }
    {
        let mut place = 0;
        let mut said = 0;
        'places: while place < self.visited.places() {
            said = say_progress(task, sink, &self.visited, place, said);
            match self.expand(task, place) {
                Ok(()) => place += 1,
                Err(stop) => {
                    say_stop(task, sink, &self.visited, place, stop);
                    return stop.closing();
                }
            }
        }
        if self.visited.deep {
            return Some(Closing::Deep);
        }
        match task.preemptions {
            Some(most) if self.visited.left_out => Some(Closing::Within(as_byte(most))),
            Some(_) => Some(Closing::Complete),
            None => Some(Closing::Complete),
        }
    }
}

/// Searches as the task says: None where an event may reach a thread that has settled.
fn search_by<K: Sink>(task: &Task, sink: &K) -> Result<Option<Findings>, AllocError>
    requires { IsTask task.now }
    ensures search { IfOk result (λ found. IfSome found (IsSearchBy (setting_for task.now) task.now.signals (reductions_of task.now) task.now.most
        task.now.preemptions)) }
    ensures none { IfOk result (λ found. found ≡ None → task.now.settle ≡ true) }
{
    let mut searcher = Searcher::start(task)?;
    settled_searches_are_complete();
    settled_searches_within_budgets_are_complete();
    match searcher.run(task, sink) {
        Some(closing) => {
            let (closing, endings) = searcher.close(task, closing);
            searcher.say_values(task, sink, closing);
            Ok(Some(searcher.findings(closing, endings)))
        }
        None => Ok(None),
    }
}

/// Visits each place once that runs of a program come to after their threads' local steps, and notes each way in which a run ends there:
/// at `Complete` no run that is spoken of ends otherwise, however long it is. At most `most` places are visited.
///
/// Where the number of preemptions is limited, each place is visited to which runs come that have no more, and at `Within` none of these
/// runs ends otherwise. A place that is come to again by a run with fewer of them than before is visited once again.
///
/// Where an event may reach a thread that has made such steps, the search begins again, and visits each place that runs come to. It does
/// so from the start where the reductions leave local steps out.
///
/// Fails only where memory is short for the start; where it is short later, the search ends with what it found. The sink hears how far
/// it is, and where that takes long what it has found so far; nothing is put there.
pub fn search<K: Sink>(
    alloc: Global,
    image: &Image,
    limits: Limits,
    most: u32,
    signals: Signals,
    reductions: Reductions,
    preemptions: Option<u8>,
    sink: &K,
) -> Result<Findings, AllocError>
    requires image { IsBootable limits.frames image.now }
    requires limits { InRange limits }
    requires most { 1 ≤ most }
    ensures { IfOk result (IsSearchBy (setting_of image.now limits) signals reductions most preemptions) }
{
    let mut task = Task {
        alloc,
        image,
        limits,
        most,
        signals,
        settle: reductions.local_steps,
        preemptions,
    };
    if let Some(findings) = search_by(&task, sink)? {
        return Ok(findings);
    }
    task.settle = false;
    match search_by(&task, sink)? {
        Some(findings) => Ok(findings),
        None => unreachable!(),
    }
}

impl Searcher {
    /// What was found.
    fn findings(self, closing: Closing, endings: Endings) -> Findings
        requires { length self.visited.rows.items < 4294967295 }
        ensures outcomes { result.outcomes ≡ self.visited.outcomes }
        ensures places { result.places ≡ length self.visited.rows.items + 1 }
        ensures deepest { result.deepest ≡ self.visited.deepest }
        ensures endless { result.endless ≡ endings.endless }
        ensures hopeless { result.hopeless ≡ endings.hopeless }
        ensures closing { result.closing ≡ closing }
    {
        let places = self.visited.places();
        let Searcher {
            visited,
            graph: _,
            made: _,
            moved: _,
            checkpoints: _,
        } = self;
        let Visited {
            rows: _,
            keys: _,
            outcomes,
            deepest,
            deep: _,
            left_out: _,
        } = visited;
        let Endings { endless, hopeless } = endings;
        Findings {
            outcomes,
            places,
            deepest,
            endless,
            hopeless,
            closing,
        }
    }
}
