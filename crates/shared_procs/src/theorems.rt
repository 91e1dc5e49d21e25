//! Laws of runs of two processes, each as the contract of a function that does nothing.

ghost use Rattle.std.specs.Prelude.{◌≡◌, ◌≢◌, ◌⊎◌, ◌<◌, ◌≤◌, ◌+◌, ◌++◌, ℕ, Bool, List, [], ◌∷◌, None, Some, false, true, length};
ghost use Rattle.mach_types.specs.Kernel.Scheduling.{has_hart};
ghost use Rattle.mach_types.specs.Kernel.Threads.{running_on};
ghost use Rattle.mach_types.specs.declared.events.Entry.{Entry};
ghost use Rattle.mach_types.specs.declared.events.Kind.TheVariants as kind;
ghost use Rattle.shared_procs.specs.ReturningBarriers.{IsBusy, PairBegun, begun_by, returning};
ghost use Rattle.shared_procs.specs.OwnEntries.{AreOfImages, IsSameProcess, own_entries};
ghost use Rattle.shared_procs.specs.PairRuns.{IsPairRun, PairEvent, PairHistory, pair_after, pair_history};
ghost use Rattle.shared_procs.specs.Pairs.{PairSetting, goes_on, half, setting};
ghost use Rattle.shared_procs.specs.StoresEntered.{entered, executed};

/// On a hart that runs no thread of a process that goes on no store of the process waits.
#[tactic(auto, using(crate::proofs::Settled::idle_holds_none))]
pub fn idle_harts_hold_no_store()
    ensures { (s : PairSetting) (log : List Entry) (p : Bool) (h : ℕ) → IsPairRun s log → h < s.limits.harts
        → goes_on (pair_after s (pair_history s log)) p ≡ true
        → running_on h (half p (pair_after s (pair_history s log))).kernel.threads ≡ None
        → (half p (pair_after s (pair_history s log))).waiting h ≡ [] }
{}

/// The stores that wait on a hart are of one process.
#[tactic(auto, using(crate::proofs::HartsApart::of_one_process))]
pub fn waiting_stores_are_of_one_process()
    ensures { (s : PairSetting) (log : List Entry) (h : ℕ) → IsPairRun s log
        → ((half false (pair_after s (pair_history s log))).waiting h ≡ [])
        ⊎ ((half true (pair_after s (pair_history s log))).waiting h ≡ []) }
{}

/// What a hart executed of plain stores has entered memory, or waits there, over both processes.
#[tactic(auto, using(crate::proofs::Sums::sum_is))]
pub fn stores_enter_or_wait()
    ensures { (s : PairSetting) (log : List Entry) (k : ℕ) → IsPairRun s log
        → executed k (pair_history s log) ≡ entered s k (pair_history s log)
        + (length ((half false (pair_after s (pair_history s log))).waiting k)
        + length ((half true (pair_after s (pair_history s log))).waiting k)) }
{}

/// Both processes see the same requests of barriers at each hart, and each of them counts the events of both.
#[tactic(auto, using(crate::proofs::SameRequests::alike_after))]
pub fn both_see_the_same_requests()
    ensures requests { (s : PairSetting) (log : List Entry) (k : ℕ)
        → (half false (pair_after s (pair_history s log))).requests k
        ≡ (half true (pair_after s (pair_history s log))).requests k }
    ensures restarts { (s : PairSetting) (log : List Entry) (k : ℕ)
        → (half false (pair_after s (pair_history s log))).restart k
        ≡ (half true (pair_after s (pair_history s log))).restart k }
    ensures first { (s : PairSetting) (log : List Entry)
        → (half false (pair_after s (pair_history s log))).made ≡ (pair_after s (pair_history s log)).made }
    ensures second { (s : PairSetting) (log : List Entry)
        → (half true (pair_after s (pair_history s log))).made ≡ (pair_after s (pair_history s log)).made }
{}

/// Where `done` comes in a pair run, the barrier returns that the thread of the hart began (membarrier(2)). What each hart that it is
/// about had stored before the call is then in memory, whichever process stored it.
#[tactic(auto, using(crate::proofs::BarrierReturns::returns, crate::proofs::BarrierReturns::is_called, crate::proofs::BarrierReturns::stores_entered))]
pub fn barriers_return_over_both()
    // There is that barrier.
    ensures begun { (s : PairSetting) (earlier later : List Entry) (entry : Entry)
        → IsPairRun s (earlier ++ entry ∷ later) → entry.kind ≡ kind.Done
        → (b : PairBegun) × (returning s earlier entry.hart.0 ≡ Some b) }
    // A barrier that a thread of process p began on hart h was begun by an event of these: its call, which stands
    // right after `b.call`.
    ensures call { (s : PairSetting) (log : List Entry) (p : Bool) (h : ℕ) (b : PairBegun)
        → begun_by p h (pair_history s log) ≡ Some b
        → (since : PairHistory) × (call : PairEvent) × (pair_history s log ≡ since ++ call ∷ b.call)
        × (call.process ≡ p) × (call.entry.hart.0 ≡ h) × (call.done.barrier ≡ Some b.barrier) }
    // The harts that it is about are others than its own, and ran a thread of either process where it was called.
    ensures about { (s : PairSetting) (log : List Entry) (p : Bool) (h k : ℕ) (b : PairBegun) → IsPairRun s log
        → begun_by p h (pair_history s log) ≡ Some b → has_hart b.barrier.targets k ≡ true
        → (k ≢ h) × IsBusy (pair_after s b.call) k }
    // Each plain store that a hart which it is about executed before the call has entered memory.
    ensures stores { (s : PairSetting) (earlier later : List Entry) (entry : Entry) (b : PairBegun) (k : ℕ)
        → IsPairRun s (earlier ++ entry ∷ later) → entry.kind ≡ kind.Done
        → returning s earlier entry.hart.0 ≡ Some b → has_hart b.barrier.targets k ≡ true
        → executed k b.call ≤ entered s k (pair_history s earlier) }
{}

/// A process of a pair hangs on its own entries and on what it learns at them of the other process: the bytes
/// of the segment that its instructions read, whether its SC there succeed, and whether its calls of
/// membarrier(2) wait. Nothing is said of pending requests, nor of reservations.
#[tactic(auto, using(crate::proofs::OwnRuns::is_the_same, crate::proofs::OwnRuns::same_at_each))]
pub fn process_depends_on_what_it_learns()
    // Where these are the same in two pair runs, over the same image and limits, so is the process after them.
    ensures last { (s s2 : PairSetting) (log log2 : List Entry) (p : Bool) → AreOfImages s → AreOfImages s2
        → setting s p ≡ setting s2 p → IsPairRun s log → IsPairRun s2 log2
        → own_entries s p (pair_history s log) ≡ own_entries s2 p (pair_history s2 log2)
        → IsSameProcess (half p (pair_after s (pair_history s log))) (half p (pair_after s2 (pair_history s2 log2))) }
    // So it is after each of these entries, and up to the next one: where so many of them have come in both.
    ensures each { (s s2 : PairSetting) (log later log2 later2 : List Entry) (p : Bool) → AreOfImages s → AreOfImages s2
        → setting s p ≡ setting s2 p → IsPairRun s (log ++ later) → IsPairRun s2 (log2 ++ later2)
        → own_entries s p (pair_history s (log ++ later)) ≡ own_entries s2 p (pair_history s2 (log2 ++ later2))
        → length (own_entries s p (pair_history s log)) ≡ length (own_entries s2 p (pair_history s2 log2))
        → IsSameProcess (half p (pair_after s (pair_history s log))) (half p (pair_after s2 (pair_history s2 log2))) }
{}
