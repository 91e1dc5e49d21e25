//! Laws of explorations, each as the contract of a function that does nothing.

ghost use Rattle.std.specs.Prelude.{◌≡◌, ◌+◌, All};
ghost use Rattle.block_model.specs.Setting.{Setting};
ghost use Rattle.explored_runs.specs.declared.exploration.Exploration.{Exploration};
ghost use Rattle.explored_runs.specs.Accounts.{Account};
ghost use Rattle.explored_runs.specs.DrawnOutcomes.{IsDrawnOutcome};
ghost use Rattle.explored_runs.specs.Explored.{IsExploredAs};
ghost use Rattle.explored_runs.specs.Sums.{AreDifferent, other_runs, runs_of};

/// An exploration of a setting comes to one thing: its runs are those of its seeds, and nothing is left to chance.
pub fn explorations_are_one()
    ensures { (s : Setting) (x : Exploration) (a b : Account) → IsExploredAs s x a → IsExploredAs s x b → a ≡ b }
{}

/// Each run is told once, with its outcome or among the others, and no outcome is told twice.
pub fn outcomes_are_told_once()
    ensures runs { (s : Setting) (x : Exploration) (a : Account) → IsExploredAs s x a
        → runs_of a.found + other_runs a.others ≡ a.runs }
    ensures different { (s : Setting) (x : Exploration) (a : Account) → IsExploredAs s x a
        → AreDifferent a.found }
{}

/// Each outcome that is told is that of a drawn run: the one of the seed and the policy that are told with it. Its log has as many entries
/// as are told.
pub fn explored_runs_are_drawn()
    ensures { (s : Setting) (x : Exploration) (a : Account) → IsExploredAs s x a
        → All (IsDrawnOutcome s x x.runs) a.found }
{}
