//! Laws of searches, each as the contract of a function that does nothing.

ghost use Rattle.std.specs.Prelude.{◌≡◌, ◌≤◌, ℕ, List, Option};
ghost use Rattle.mach_types.specs.declared.limits.End.{End};
ghost use Rattle.block_model.specs.Setting.{Setting};
ghost use Rattle.search_reductions.specs.declared.signals.Signals.{Signals};
ghost use Rattle.found_outcomes.specs.Found.{HasBeenFound};
ghost use Rattle.found_outcomes.specs.Search.{IsSearchOf};
ghost use Rattle.found_outcomes.specs.declared.findings.Findings.{Findings};
ghost use Rattle.found_outcomes.specs.declared.findings.Closing.TheVariants.{Complete, Within};

/// Two searches of one setting that speak of the same runs and visited all places found the same outcomes, however
/// many places each was allowed; so did two that visited all places to which runs with so many preemptions come.
pub fn complete_searches_agree()
    ensures complete { (s : Setting) (signals : Signals) (most others : ℕ) (p q : Option ℕ) (a b : Findings) (end : End)
        (console : List ℕ) → s.limits.steps ≤ 1000000
        → IsSearchOf s signals most p a → IsSearchOf s signals others q b
        → a.closing ≡ Complete → b.closing ≡ Complete
        → HasBeenFound a.outcomes.items end console → HasBeenFound b.outcomes.items end console }
    ensures within { (s : Setting) (signals : Signals) (most others n : ℕ) (p q : Option ℕ) (a b : Findings) (end : End)
        (console : List ℕ) → s.limits.steps ≤ 1000000
        → IsSearchOf s signals most p a → IsSearchOf s signals others q b
        → a.closing ≡ Within n → b.closing ≡ Within n
        → HasBeenFound a.outcomes.items end console → HasBeenFound b.outcomes.items end console }
{}
