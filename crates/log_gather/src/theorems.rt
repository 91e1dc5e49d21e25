//! Laws of gathered logs, each as the contract of a function that does nothing.

ghost use Rattle.std.specs.Prelude.{ℕ, List, ◌≡◌, ◌++◌, ◌∷◌, fold};
ghost use Rattle.mach_types.specs.declared.events.Entry.{Entry};
ghost use Rattle.block_model.specs.Run.{IsBlockRun};
ghost use Rattle.block_model.specs.Setting.{Setting};
ghost use Rattle.block_model.specs.Swaps.{IsEquivalentRun};
ghost use Rattle.block_view.specs.Acts.{acts_of};
ghost use Rattle.log_gather.specs.Facts.{first_place, own_entries};
ghost use Rattle.log_gather.specs.Gathered.{IsPrivate, StandsTogether, gather_named, gathered, names_in};
ghost use Rattle.log_gather.specs.Located.{at_end, gathered_by_events, located};
ghost use Rattle.log_gather.specs.LogEvents.{Name};

/// The gathered log of a block run is one, with the entries of each hart in their order, and after it all is
/// as it was. Each sequence that is private at its turn stands together in it: the entries that it has at
/// that turn, one behind the other.
pub fn gathered_logs_are_block_runs()
    ensures good { (s : Setting) (log : List Entry) → IsBlockRun s log
        → IsEquivalentRun s log (gathered s log) }
    ensures own { (s : Setting) (log : List Entry) (h : ℕ) → IsBlockRun s log
        → own_entries h (gathered s log) ≡ own_entries h log }
    ensures together { (s : Setting) (log : List Entry) (earlier later : List Name) (x : Name)
        → IsBlockRun s log → names_in (λ k. 0) (acts_of s log) ≡ earlier ++ x ∷ later
        → (private : IsPrivate s (fold (gather_named s) log earlier) x)
        → StandsTogether s (fold (gather_named s) log earlier) private.act (gathered s log) x }
    // It is computed from the events of the given log alone.
    ensures by_events { (s : Setting) (log : List Entry) → IsBlockRun s log
        → gathered s log
        ≡ gathered_by_events (at_end s log) (names_in (λ k. 0) (acts_of s log))
        (located s (first_place s) log) }
{}
