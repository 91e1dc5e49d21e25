//! A visit to a place to which an event has led, and settling steps after it.

ghost use Rattle.std.specs.Prelude.{◌≡◌, ◌≢◌, Err, ℕ, ◌≤◌, ◌<◌, ◌-◌, ◌+◌, ◌++◌, ◌∷◌, [], ◌^◌, length, IfOk, IsErrOf};
ghost use Rattle.block_model.specs.Setting.{Setting};
ghost use Rattle.search_reductions.specs.declared.signals.Signals.{Signals};
ghost use Rattle.place_keys.specs.{Packed.packed, PartWords.parts_words};
ghost use Rattle.mach_types.specs.declared.events.Choice.{Choice};
ghost use Rattle.settled_places.specs.Budgets.{spent};
ghost use Rattle.place_search.specs.Logs.{AreSingle, logs_of};
ghost use Rattle.place_search.specs.Preemptions.{ArePaid, kept_at};
ghost use Rattle.place_search.specs.Visiting.{AreEndsFound, HasVisited, IsKeyOf, IsMore, MayVisit};

use crate::keys::key_of;
use crate::remade::Remade;
use crate::row::Row;
use crate::sights::Sights;
use crate::stop::Stop;
use crate::visited::Visited;
use mach_types::Entry;
use owed_signals::Dues;
use std::alloc::{AllocError, Global};

/// A place that was visited, with its log.
#[derive(Drop)]
pub(crate) struct Reached {
    /// The number of the place.
    pub(crate) place: u32,
    /// Its log.
    pub(crate) log: Vec<Entry>,
    /// How many preemptions its log has, where their number is limited; else 0.
    pub(crate) preemptions: u8,
    /// What the areas of threads look at there. It is read where threads settle, and there alone.
    pub(crate) sights: Sights,
    /// The set of the harts that owe their thread a signal there.
    pub(crate) owed: u8,
    /// What is due at these harts.
    pub(crate) dues: Dues,
}

/// A log with more entries.
fn longer(alloc: Global, log: &[Entry], more: &[Entry]) -> Result<Vec<Entry>, AllocError>
    requires { length log.now + length more.now < 2 ^ 32 }
    ensures { IfOk result (λ all. all.items ≡ log.now ++ more.now) }
{
    let mut all = Vec::with_capacity(alloc, log.len() + more.len())?;
    all.extend_from_slice(log)?;
    all.extend_from_slice(more)?;
    Ok(all)
}

impl Visited {
    /// Visits the place at which the parts stand after some entries more, unless it was visited and its log has no more preemptions than
    /// this one: then nothing changes. Where they are limited and it has more, the place is visited once again, with this log. The harts of
    /// the set `owed` owe their thread a signal there. Answers the number of the place: of entries of a run that has come from a place that
    /// was visited, the key of the place is that of the number.
    pub(crate) fn visit(
        &mut self,
        alloc: Global,
        most: u32,
        from: &Reached,
        mut entries: Vec<Entry>,
        owed: u8,
        preemptions: u8,
        made: &Remade,
    ) -> Result<u32, Stop>
        requires few { length self.old.rows.items < most }
        requires log { length from.now.log.items + length entries.items < 2 ^ 32 }
        ensures kept { (s : Setting) (signals : Signals)
            → MayVisit s signals self.old from.now entries.items owed made.now → HasVisited s signals made.now.start self.new }
        ensures more { IsMore self.old self.new }
        ensures few { length self.new.rows.items < most }
        ensures back { IfOk result (λ to. (s : Setting) (signals : Signals)
            → MayVisit s signals self.old from.now entries.items owed made.now
            → IsKeyOf s signals made.now.start (logs_of self.new.rows.items) (packed (owed ∷ parts_words made.now.start made.now.parts), to)) }
        ensures ends { result ≢ Err Stop.Memory → (s : Setting) (signals : Signals)
            → MayVisit s signals self.old from.now entries.items owed made.now → AreEndsFound s self.old → AreEndsFound s self.new }
        ensures full { IsErrOf result Stop.Places → length self.new.rows.items + 1 ≡ most }
        ensures settled { result ≢ Err Stop.Unsettled }
        ensures single { length entries.items ≡ 1 → AreSingle self.old.rows.items → AreSingle self.new.rows.items }
        ensures paid { (s : Setting) (signals : Signals) (cost : Choice → ℕ) (budget : ℕ)
            → MayVisit s signals self.old from.now entries.items owed made.now
            → spent cost (from.now.log.items ++ entries.items) ≡ preemptions → preemptions ≤ budget
            → ArePaid cost budget self.old.rows.items → ArePaid cost budget self.new.rows.items }
        ensures no_dearer { IfOk result (λ to. kept_at self.new.rows.items to ≤ preemptions) }
    {
        let key = key_of(alloc, &made.parts, owed, &made.start)?;
        if let Some(known) = self.known(&key, preemptions) {
            return Ok(known);
        }
        let place = self.places();
        if place >= most {
            return Err(Stop::Places);
        }
        let log = longer(alloc, &from.log, &entries)?;
        entries.reverse();
        let row = Row {
            parent: from.place,
            entries,
            preemptions,
            owed,
        };
        self.add(alloc, row, &key, log.len() as u32)?;
        self.note(alloc, &made.parts, &log)?;
        Ok(place)
    }
}
