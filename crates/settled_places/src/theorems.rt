//! The laws of such searches, each as the contract of a function that does nothing.

ghost use Rattle.std.specs.Prelude.{◌≡◌, ◌≤◌, ℕ, Bool, List, Some};
ghost use Rattle.mach_types.specs.declared.{events.Choice.Choice, events.Entry.Entry, limits.End.End};
ghost use Rattle.block_model.specs.Deciding.{history, over_at};
ghost use Rattle.block_model.specs.History.{console};
ghost use Rattle.block_model.specs.Plain.{plain_after, plain_over};
ghost use Rattle.block_model.specs.Run.{IsBlockRun};
ghost use Rattle.block_model.specs.Setting.{Setting, with_steps};
ghost use Rattle.prompt_runs.specs.Prompt.{IsSpokenOf};
ghost use Rattle.search_reductions.specs.declared.signals.Signals.{Signals};
ghost use Rattle.same_places.specs.Closed.{HasOutcome, after_logs};
ghost use Rattle.same_places.specs.FreeRuns.{IsFreeRun};
ghost use Rattle.settled_places.specs.Budgets.{IsSettledSearchWithin, spent};
ghost use Rattle.settled_places.specs.SettledSearch.{IsSettledSearch};

/// The places that a finished search stored have the outcome of every run that is spoken of and is over, though
/// it stored none between local steps: of each run that no step limit ends, and of each block run under each
/// step limit. Spoken of are all runs, or those in which a signal of a thread's own comes at once.
///
/// Nothing is said of runs that never end: they have no outcome. Which threads settle and which bytes are
/// private to them is the search's guess. A wrong guess makes no wrong answer: then it can't establish what
/// is asked.
pub fn settled_searches_are_complete()
    ensures free_runs { (s : Setting) (signals : Signals) (threads : ℕ → Bool) (private : ℕ → ℕ → Bool)
        (logs : List (List Entry)) (log : List Entry) (e : End)
        → IsSettledSearch s signals threads private logs → IsFreeRun s log → IsSpokenOf signals s log
        → plain_over (plain_after s log) ≡ Some e
        → HasOutcome (after_logs s logs) e (plain_after s log).kernel.console }
    ensures block_runs { (s : Setting) (signals : Signals) (threads : ℕ → Bool) (private : ℕ → ℕ → Bool)
        (n : ℕ) (logs : List (List Entry)) (log : List Entry) (e : End)
        → IsSettledSearch s signals threads private logs → IsBlockRun (with_steps n s) log
        → IsSpokenOf signals s log → over_at (with_steps n s) (history (with_steps n s) log) ≡ Some e
        → HasOutcome (after_logs s logs) e (console (with_steps n s) (history (with_steps n s) log)) }
{}

/// Where choices cost something, the places that a finished search stored whose runs have a budget have the
/// outcome of every run that is spoken of, is over, and whose choices cost no more than that.
///
/// Where a `preempt` costs 1 and all else nothing, these are the runs with at most so many preemptions.
pub fn settled_searches_within_budgets_are_complete()
    ensures free_runs { (s : Setting) (signals : Signals) (threads : ℕ → Bool) (private : ℕ → ℕ → Bool)
        (cost : Choice → ℕ) (k : ℕ) (logs : List (List Entry)) (log : List Entry) (e : End)
        → IsSettledSearchWithin s signals threads private cost k logs → IsFreeRun s log
        → IsSpokenOf signals s log → spent cost log ≤ k → plain_over (plain_after s log) ≡ Some e
        → HasOutcome (after_logs s logs) e (plain_after s log).kernel.console }
    ensures block_runs { (s : Setting) (signals : Signals) (threads : ℕ → Bool) (private : ℕ → ℕ → Bool)
        (cost : Choice → ℕ) (k n : ℕ) (logs : List (List Entry)) (log : List Entry) (e : End)
        → IsSettledSearchWithin s signals threads private cost k logs → IsBlockRun (with_steps n s) log
        → IsSpokenOf signals s log → spent cost log ≤ k
        → over_at (with_steps n s) (history (with_steps n s) log) ≡ Some e
        → HasOutcome (after_logs s logs) e (console (with_steps n s) (history (with_steps n s) log)) }
{}
