//! Instructions that no other thread can notice may be made at once, before the events of others.
//!
//! Such a local step touches registers and the pc alone, or loads bytes that no one else changes. A search of
//! all runs of a program need not look at the machines between local steps: these have no end that the
//! machines after them haven't. [`explorations_are_complete`] says what the search has to check for that.
#![tactic(auto)]

ghost use Rattle.std.specs.Prelude.{ℕ, Any, Bool, List, ◌≡◌, true};
ghost use Rattle.mach_types.specs.declared.events.Choice.{Choice};
ghost use Rattle.mach_types.specs.declared.limits.End.{End};
ghost use Rattle.local_steps.specs.Explorations.{AreAll, IsExplored};
ghost use Rattle.block_model.specs.Plain.{Plain};
ghost use Rattle.block_model.specs.Setting.{Setting};

/// Machines that were explored, each one after local steps of its threads, have the end and the console of
/// every block run that is over, however long it is.
///
/// `rests` are the threads whose local steps are made at once, and `private` the bytes that are private to a
/// thread. Both are guesses. A wrong guess makes no wrong answer: then the machines can't be an exploration.
///
/// Choices may cost something, and then the law is of the runs that cost no more than `k`. Where they cost
/// nothing, it is of all runs; where a `preempt` costs 1 and all else nothing, of those with at most `k`
/// preemptions.
pub fn explorations_are_complete()
    ensures { (s : Setting) (rests : ℕ → Bool) (private : ℕ → ℕ → Bool) (cost : Choice → ℕ) (k : ℕ)
        (seen : List (ℕ × Plain)) (outcomes : List (End × List ℕ))
        → IsExplored s (λ t. rests t ≡ true) private cost k (λ j m. Any (λ n. n ≡ (j, m)) seen)
        (λ e console. Any (λ o. o ≡ (e, console)) outcomes)
        → AreAll s cost k (λ e console. Any (λ o. o ≡ (e, console)) outcomes) }
{}
