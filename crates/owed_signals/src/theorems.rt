//! What such sets say, each law as the contract of a function that does nothing.

ghost use Rattle.std.specs.Prelude.{◌≡◌, ◌<◌, ◌≤◌, ℕ, Bool, true, false};
ghost use Rattle.mach_types.specs.Kernel.Barriers.{harts_that};
ghost use Rattle.mach_types.specs.Kernel.Scheduling.{has_hart};
ghost use Rattle.mach_types.specs.declared.events.Choice.{Choice};
ghost use Rattle.block_model.specs.Plain.{Plain, here_in_plain};
ghost use Rattle.block_model.specs.Setting.{Setting};
ghost use Rattle.process.specs.Refinement.{IsTied};
ghost use Rattle.process.specs.declared.parts.Parts.{Parts};
ghost use Rattle.prompt_runs.specs.Owed.{machine_after, owed_next, traps};
ghost use Rattle.prompt_runs.specs.Prompt.{IsInTime};
ghost use Rattle.search_reductions.specs.declared.signals.Signals.{Signals};
ghost use Rattle.same_places.specs.Places.{rested};
ghost use Rattle.owed_signals.specs.{Dues.AreDuesOf, Dues.is_in_time, Owing.owes_in};
ghost use Rattle.owed_signals.specs.declared.dues.Dues.{Dues};

/// Where a set says which harts owed a signal at a place, that of [`owed_after`](crate::owed_after) says which do after
/// an event there.
pub fn sets_say_what_is_owed()
    ensures { (s : Setting) (signals : Signals) (p : Plain) (m : Parts) (owed : ℕ → Bool) (before h : ℕ) (c : Choice)
        → s.limits.harts ≤ 8 → h < s.limits.harts → ((k : ℕ) → k < s.limits.harts → has_hart before k ≡ owed k)
        → IsTied s (rested (machine_after s p h c)) m → (k : ℕ) → k < s.limits.harts
        → has_hart (harts_that (owes_in signals m before h c (traps (here_in_plain s p h))) 8) k
        ≡ owed_next signals s p owed h c k }
{}

/// A choice comes in time where it is what is due, and nowhere else.
pub fn dues_say_what_comes_in_time()
    ensures yes { (s : Setting) (p : Plain) (m : Parts) (owed : ℕ → Bool) (set h : ℕ) (x : Dues) (c : Choice)
        → s.limits.harts ≤ 8 → h < s.limits.harts → has_hart set h ≡ owed h → IsTied s (rested p) m
        → AreDuesOf m set x → is_in_time x h c ≡ true → IsInTime p owed h c }
    ensures no { (s : Setting) (p : Plain) (m : Parts) (owed : ℕ → Bool) (set h : ℕ) (x : Dues) (c : Choice)
        → s.limits.harts ≤ 8 → h < s.limits.harts → has_hart set h ≡ owed h → IsTied s (rested p) m
        → AreDuesOf m set x → is_in_time x h c ≡ false → IsInTime p owed h c → ⊥ }
{}
