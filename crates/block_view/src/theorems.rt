//! Laws of acts, each as the contract of a function that does nothing.

ghost use Rattle.std.specs.Prelude.{ℕ, List, ◌≡◌, ◌+◌, ◌==◌, All, Some, filter, length, map, slice_get};
ghost use Rattle.std.specs.List.Sorted.{IsStrictlyIncreasing};
ghost use Rattle.mach_types.specs.declared.events.Entry.{Entry};
ghost use Rattle.block_model.specs.{Run.IsBlockRun, Setting.Setting};
ghost use Rattle.block_view.specs.{Acts.acts_of, Counting.counts_of, Counting.total};
ghost use Rattle.block_view.specs.{Entries.HasEntry, Entries.IsWithin, Viewing.IsViewCause};
ghost use Rattle.block_view.specs.declared.forms.Act.{Act};
ghost use Rattle.block_view.specs.declared.viewing.ViewFault.TheVariants.{NotARun};

/// Each entry of a log is in exactly one act, which is of its hart, and the acts come in the order of their first entries. Entries are
/// numbered from 1.
pub fn acts_cover_the_log()
    ensures covered { (s : Setting) (log : List Entry) (k : ℕ) (entry : Entry) → slice_get log k ≡ Some entry
        → (i : ℕ) × (act : Act) × (slice_get (acts_of s log) i ≡ Some act) × HasEntry act (k + 1) entry }
    ensures once { (s : Setting) (log : List Entry) (k i j : ℕ) (entry : Entry) (a b : Act)
        → slice_get log k ≡ Some entry
        → slice_get (acts_of s log) i ≡ Some a → HasEntry a (k + 1) entry
        → slice_get (acts_of s log) j ≡ Some b → HasEntry b (k + 1) entry → i ≡ j }
    // Between the first entry of an act and its last there may be entries of other harts.
    ensures bounds { (s : Setting) (log : List Entry) → All (IsWithin (length log)) (acts_of s log) }
    ensures order { (s : Setting) (log : List Entry)
        → IsStrictlyIncreasing (map (λ (act : Act). act.first) (acts_of s log)) }
{}

/// The counts of a hart add up to the number of its acts.
pub fn counts_add_up()
    ensures { (list : List Act) (h : ℕ)
        → total (counts_of list h) ≡ length (filter (λ (act : Act). act.hart.0 == h) list) }
{}

/// A block run is viewed: `acts` refuses no entry of it, and so errs only for want of memory. The log of a machine is one.
pub fn block_runs_are_viewed()
    ensures { (s : Setting) (log : List Entry) (number : ℕ)
        → IsBlockRun s log → IsViewCause s log (NotARun number) → ⊥ }
{}
