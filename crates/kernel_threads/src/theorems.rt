//! Laws of what is saved of the threads.

ghost use Rattle.std.specs.Prelude.{◌≡◌, ◌≢◌, ◌+◌, ℕ, Option, Some, None, IsSome, true, false};
ghost use Rattle.std.specs.Option.{option_map};
ghost use Rattle.kernel_threads.specs.Table.{Table, IsTable, SavedList, start_table, saved_of, with_saved, with_start, with_answer, answering, forget};
ghost use Rattle.mach_types.specs.Kernel.Threads.{state_of, is_live, is_running_state};
ghost use Rattle.mach_types.specs.declared.events.Hart.{Hart};
ghost use Rattle.mach_types.specs.declared.threads.Saved.{Saved};
ghost use Rattle.mach_types.specs.declared.threads.ThreadState.{ThreadState};
ghost use Rattle.mach_types.specs.declared.threads.ThreadState.TheVariants.{Running};

/// Something is saved of a live thread that doesn't run, and nothing of one that runs or isn't live.
pub fn thread_is_saved_while_it_does_not_run()
    ensures not_running { (t : ℕ) (st : ThreadState) (table : Table) → IsTable table
        → state_of t table.threads ≡ Some st → is_running_state st ≡ false → IsSome (saved_of t table.saved) }
    ensures running { (t : ℕ) (h : Hart) (table : Table) → IsTable table
        → state_of t table.threads ≡ Some (Running h) → saved_of t table.saved ≡ None }
    ensures not_live { (t : ℕ) (table : Table) → IsTable table
        → is_live t table.threads ≡ false → saved_of t table.saved ≡ None }
{}

/// A thread has what it was last saved with, and nothing once it runs or ended.
pub fn thread_has_what_it_was_saved_with()
    ensures start { (start : Saved) → saved_of 1 (start_table start).saved ≡ Some start }
    ensures child { (start : Saved) (table : Table) → IsTable table
        → let t = table.threads.given + 1 in saved_of t (with_start t start table.saved) ≡ Some start }
    ensures saved { (t : ℕ) (kept : Saved) (table : Table) → IsTable table
        → is_live t table.threads ≡ true → saved_of t (with_saved t (Some kept) table.saved) ≡ Some kept }
    ensures answered { (t value : ℕ) (saved : SavedList)
        → saved_of t (with_answer t value saved) ≡ option_map (answering value) (saved_of t saved) }
    ensures runs { (t : ℕ) (saved : SavedList) → saved_of t (with_saved t None saved) ≡ None }
    ensures ended { (t : ℕ) (saved : SavedList) → saved_of t (forget t saved) ≡ None }
{}

/// What happens to one thread leaves what is saved of the others.
pub fn others_keep_what_they_were_saved_with()
    ensures child { (t u : ℕ) (start : Saved) (saved : SavedList) → u ≢ t
        → saved_of u (with_start t start saved) ≡ saved_of u saved }
    ensures saved { (t u : ℕ) (kept : Option Saved) (saved : SavedList) → u ≢ t
        → saved_of u (with_saved t kept saved) ≡ saved_of u saved }
    ensures answered { (t u value : ℕ) (saved : SavedList) → u ≢ t
        → saved_of u (with_answer t value saved) ≡ saved_of u saved }
    ensures ended { (t u : ℕ) (saved : SavedList) → u ≢ t
        → saved_of u (forget t saved) ≡ saved_of u saved }
{}
