//! Laws of whether runs can end and how many instructions they execute, each as the contract of a function
//! that does nothing.

ghost use Rattle.std.specs.Prelude.{◌≡◌, ◌<◌, ℕ, Bool, true, List, length};
ghost use Rattle.mach_types.specs.declared.events.Entry.{Entry};
ghost use Rattle.block_model.specs.Setting.{Setting};
ghost use Rattle.prompt_runs.specs.Prompt.{IsSpokenOf};
ghost use Rattle.search_reductions.specs.declared.signals.Signals.{Signals};
ghost use Rattle.same_places.specs.FreeRuns.{IsFreeRun};
ghost use Rattle.settled_places.specs.Edges.{AreBusyEdges, AreEdges, log_by_number};
ghost use Rattle.settled_places.specs.Endings.{CanEnd, HasLongWork, IsHopeless, IsWorkBounded};
ghost use Rattle.settled_places.specs.SettledSearch.{IsSettledSearch};
ghost use Rattle.settled_places.specs.Walks.{AreRanks, GoesRound, IsTrap, ReachesEnd};

/// From a stored place from which edges lead to one that is over, a run can go on so that it ends. From one
/// of some places that no edge leaves, and none of which is over, it can't, however it goes on. Here and below
/// a run is one that is spoken of: any, or one in which a signal of a thread's own comes at once.
pub fn walks_tell_who_can_end()
    ensures can_end { (s : Setting) (signals : Signals) (threads : ℕ → Bool) (private : ℕ → ℕ → Bool)
        (logs : List (List Entry)) (edges : ℕ → List ℕ) (k : ℕ)
        → IsSettledSearch s signals threads private logs → AreEdges s signals threads private logs edges
        → k < length logs → ReachesEnd s logs edges k → CanEnd s signals (log_by_number logs k) }
    ensures hopeless { (s : Setting) (signals : Signals) (threads : ℕ → Bool) (private : ℕ → ℕ → Bool)
        (logs : List (List Entry)) (edges : ℕ → List ℕ) (among : ℕ → Bool) (k : ℕ)
        → IsSettledSearch s signals threads private logs → AreEdges s signals threads private logs edges
        → IsTrap s logs edges among → k < length logs → among k ≡ true
        → IsHopeless s signals (log_by_number logs k) }
{}

/// Where edges lead from each place that a finished search stored to one that is over, a run can go on so
/// that it ends from wherever it is, also between the local steps of its threads.
pub fn each_run_can_end()
    ensures { (s : Setting) (signals : Signals) (threads : ℕ → Bool) (private : ℕ → ℕ → Bool)
        (logs : List (List Entry)) (edges : ℕ → List ℕ) (log : List Entry)
        → IsSettledSearch s signals threads private logs → AreEdges s signals threads private logs edges
        → ((k : ℕ) → k < length logs → ReachesEnd s logs edges k) → IsFreeRun s log
        → IsSpokenOf signals s log → CanEnd s signals log }
{}

/// Where the places have ranks that fall along each edge on which an instruction is executed, and rise along
/// none, no run executes more instructions than some number. Where a walk can go round and round, on which an
/// instruction is executed, there are runs that execute as many as you like.
pub fn walks_tell_how_much_is_executed()
    ensures bounded { (s : Setting) (signals : Signals) (threads : ℕ → Bool) (private : ℕ → ℕ → Bool)
        (logs : List (List Entry)) (edges busy : ℕ → List ℕ) (rank : ℕ → ℕ)
        → IsSettledSearch s signals threads private logs → AreEdges s signals threads private logs edges
        → AreBusyEdges s signals threads private logs edges busy → AreRanks logs edges busy rank
        → IsWorkBounded s signals }
    ensures endless { (s : Setting) (signals : Signals) (threads : ℕ → Bool) (private : ℕ → ℕ → Bool)
        (logs : List (List Entry)) (edges busy : ℕ → List ℕ) → IsSettledSearch s signals threads private logs
        → AreEdges s signals threads private logs edges
        → AreBusyEdges s signals threads private logs edges busy → GoesRound logs edges busy
        → HasLongWork s signals }
{}
