//! Laws of closed families of places, each as the contract of a function that does nothing.

ghost use Rattle.std.specs.Prelude.{◌≡◌, ◌≤◌, ℕ, List, Some, All};
ghost use Rattle.mach_types.specs.declared.{events.Entry.Entry, limits.End.End};
ghost use Rattle.block_model.specs.Deciding.{history, over_at};
ghost use Rattle.block_model.specs.History.{console};
ghost use Rattle.block_model.specs.Plain.{plain_after, plain_over};
ghost use Rattle.block_model.specs.Run.{IsBlockRun};
ghost use Rattle.block_model.specs.Setting.{Setting, with_steps};
ghost use Rattle.same_places.specs.Closed.{HasOutcome, IsClosed, IsRunEnding, after_logs};
ghost use Rattle.same_places.specs.FreeRuns.{IsFreeRun};
ghost use Rattle.same_places.specs.Searched.{IsSearched};

/// A family of places that no event leaves has the outcome of every run that is over, however many steps the
/// run took; and each of its outcomes is that of a block run.
///
/// Nothing is said of runs that never end: they have no outcome.
pub fn closed_places_are_complete()
    // Of runs of any length: no step limit is asked.
    ensures free_runs { (s : Setting) (logs : List (List Entry)) (log : List Entry) (e : End)
        → IsClosed s (after_logs s logs) → IsFreeRun s log → plain_over (plain_after s log) ≡ Some e
        → HasOutcome (after_logs s logs) e (plain_after s log).kernel.console }
    // Of each step limit that a machine may have.
    ensures block_runs { (s : Setting) (n : ℕ) (logs : List (List Entry)) (log : List Entry) (e : End)
        → IsClosed s (after_logs s logs) → n ≤ 1000000 → IsBlockRun (with_steps n s) log
        → over_at (with_steps n s) (history (with_steps n s) log) ≡ Some e
        → HasOutcome (after_logs s logs) e (console (with_steps n s) (history (with_steps n s) log)) }
    ensures sound { (s : Setting) (logs : List (List Entry)) (e : End) (console : List ℕ)
        → All (IsBlockRun s) logs → HasOutcome (after_logs s logs) e console
        → (log : List Entry) × IsRunEnding s e console log }
{}

/// The places that a finished search visited are closed. It need not try that a thread begins to run which
/// isn't ready.
pub fn searched_places_are_closed()
    ensures { (s : Setting) (logs : List (List Entry)) → IsSearched s logs → IsClosed s (after_logs s logs) }
{}
