//! Laws of prompt runs, each as the contract of a function that does nothing.

ghost use Rattle.std.specs.Prelude.{◌≡◌, ◌++◌, ℕ, true, [], ◌∷◌, List, None};
ghost use Rattle.mach_types.specs.Events.{choice_of};
ghost use Rattle.mach_types.specs.declared.events.Entry.{Entry};
ghost use Rattle.block_model.specs.Events.{refusal_of};
ghost use Rattle.block_model.specs.Plain.{here_in_plain, plain_after};
ghost use Rattle.block_model.specs.Setting.{Setting, with_steps};
ghost use Rattle.search_reductions.specs.declared.signals.Signals.{Signals};
ghost use Rattle.search_reductions.specs.declared.signals.Signals.TheVariants.{Any};
ghost use Rattle.prompt_runs.specs.{Owed.owed_after, Prompt.{IsInTime, IsSpokenOf, due}};

/// Of `any` no run is left out.
pub fn any_run_may_come()
    ensures { (s : Setting) (log : List Entry) → IsSpokenOf Any s log }
{}

/// The empty log is one of those that are spoken of; and one of them goes on by each entry that comes in
/// time.
pub fn prompt_runs_go_on()
    ensures start { (s : Setting) (signals : Signals) → IsSpokenOf signals s [] }
    ensures more { (s : Setting) (signals : Signals) (log : List Entry) (e : Entry)
        → IsSpokenOf signals s log
        → IsInTime (plain_after s log) (owed_after signals s log) e.hart.0 (choice_of e)
        → IsSpokenOf signals s (log ++ e ∷ []) }
{}

/// Under each step limit the same runs are spoken of: no rule reads it.
pub fn no_step_limit_is_read()
    ensures limited { (s : Setting) (n : ℕ) (signals : Signals) (log : List Entry) → IsSpokenOf signals s log
        → IsSpokenOf signals (with_steps n s) log }
    ensures back { (s : Setting) (n : ℕ) (signals : Signals) (log : List Entry)
        → IsSpokenOf signals (with_steps n s) log → IsSpokenOf signals s log }
{}

/// What is due at a hart that owes its thread a signal is never refused: that no other event of the hart comes
/// before it keeps no run from going on.
pub fn what_is_due_may_come()
    ensures { (s : Setting) (signals : Signals) (log : List Entry) (h : ℕ)
        → owed_after signals s log h ≡ true → (plain_after s log).awaits h ≡ None
        → refusal_of (due ((plain_after s log).waiting h)) (here_in_plain s (plain_after s log) h) ≡ None }
{}
