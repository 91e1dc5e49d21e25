//! Laws of the ready list and the affinities.

ghost use Rattle.std.specs.Prelude.{◌≡◌, ◌≢◌, ◌≤◌, ◌<◌, ℕ, Some, None, true, false, length};
ghost use Rattle.mach_types.specs.Kernel.Scheduling.{Scheduling, start_scheduling, affinity_of, has_hart, first_for, with_thread, forget, with_ready, without_ready, with_affinity};
ghost use Rattle.mach_types.specs.declared.kernel_words.TheConstants.{MOST_THREADS};
ghost use Rattle.scheduler.specs.Holding.{IsScheduling, is_held, is_ready};

/// What a [`crate::Ready`] keeps holds at the start, and after each call where it held before.
pub fn scheduling_stays_whole()
    ensures start { (harts : ℕ) → harts ≤ 8 → IsScheduling (start_scheduling harts) }
    ensures add { (parent t : ℕ) (s : Scheduling) → IsScheduling s
        → is_held t s ≡ false → length s.affinities < MOST_THREADS → IsScheduling (with_thread parent t s) }
    ensures remove { (t : ℕ) (s : Scheduling) → IsScheduling s
        → is_ready t s ≡ false → IsScheduling (forget t s) }
    ensures push { (t : ℕ) (s : Scheduling) → IsScheduling s
        → is_held t s ≡ true → is_ready t s ≡ false → IsScheduling (with_ready t s) }
    ensures take { (t : ℕ) (s : Scheduling) → IsScheduling s → IsScheduling (without_ready t s) }
    ensures set_affinity { (t set : ℕ) (s : Scheduling) → IsScheduling s
        → set < 256 → IsScheduling (with_affinity t set s) }
    ensures affinity { (t : ℕ) (s : Scheduling) → IsScheduling s → affinity_of t s < 256 }
{}

/// The first thread for a hart is ready and may run there; where there is none, no ready thread may.
pub fn first_for_is_allowed()
    ensures ready { (h t : ℕ) (s : Scheduling) → first_for h s ≡ Some t → is_ready t s ≡ true }
    ensures allowed { (h t : ℕ) (s : Scheduling)
        → first_for h s ≡ Some t → has_hart (affinity_of t s) h ≡ true }
    ensures none { (h t : ℕ) (s : Scheduling)
        → first_for h s ≡ None → is_ready t s ≡ true → has_hart (affinity_of t s) h ≡ false }
{}

/// A change of one thread's harts leaves those of the others.
pub fn affinity_changes_alone()
    ensures own { (t set : ℕ) (s : Scheduling)
        → is_held t s ≡ true → affinity_of t (with_affinity t set s) ≡ set }
    ensures others { (t u set : ℕ) (s : Scheduling)
        → u ≢ t → affinity_of u (with_affinity t set s) ≡ affinity_of u s }
{}
