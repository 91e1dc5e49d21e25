//! Laws of signals.

ghost use Rattle.std.specs.Prelude.{◌≡◌, ◌≢◌, ◌<◌, ◌≤◌, ◌+◌, ℕ, Some, None, true, false, not, ◌&&◌, ◌||◌, length, List, Option};
ghost use Rattle.mach_types.specs.Kernel.SignalFrames as frame;
ghost use Rattle.mach_types.specs.Kernel.Signals.{Signalling, acted, action_of, changed_mask, fault_of, forget, has_signal, is_deliverable, is_held, is_ignored, joined, less, mask_of, maskable, next_for, only, pending_of, posted, start_signalling, with_fault, with_mask, with_thread, without_pending};
ghost use Rattle.mach_types.specs.declared.kernel_words.TheConstants.{MOST_THREADS};
ghost use Rattle.mach_types.specs.declared.signals.TheConstants.{LAST_SIGNAL};
ghost use Rattle.mach_types.specs.declared.signal_words.Action.{Action};
ghost use Rattle.mach_types.specs.declared.signal_words.Fault.{Fault};
ghost use Rattle.mach_types.specs.declared.threads.Saved.{Saved};
ghost use Rattle.signals.specs.Frames.{CanReadFrame, IsFile, IsTold, IsWord};
ghost use Rattle.signals.specs.Holding.{IsMask, IsSignalling};

/// SIGKILL and SIGSTOP are in no mask that sigprocmask(2) makes, that a handler runs with, or that it returns
/// to.
pub fn kill_and_stop_are_never_masked()
    ensures maskable { (signals : ℕ) → IsMask (maskable signals) }
    ensures changed { (how signals mask : ℕ) → IsMask (changed_mask how signals mask) }
    ensures entered { (s mask : ℕ) (a : Action) → IsMask (frame.handler_mask s a mask) }
{}

/// What holds of the signals of a process holds at the start, and after each call where it held before: each
/// signal has an action, a thread is held once, and no mask has SIGKILL or SIGSTOP.
pub fn signalling_stays_whole()
    ensures start { IsSignalling start_signalling }
    ensures add { (parent t : ℕ) (g : Signalling) → IsSignalling g
        → is_held t g ≡ false → length g.threads < MOST_THREADS → IsSignalling (with_thread parent t g) }
    ensures remove { (t : ℕ) (g : Signalling) → IsSignalling g → IsSignalling (forget t g) }
    ensures act { (s : ℕ) (new : Option Action) (g : Signalling) → IsSignalling g
        → IsSignalling (acted s new g) }
    ensures mask { (t how signals : ℕ) (g : Signalling) → IsSignalling g
        → IsSignalling (with_mask t (changed_mask how signals (mask_of t g)) g) }
    ensures post { (t s : ℕ) (g : Signalling) → IsSignalling g → IsSignalling (posted t s g) }
    ensures post_fault { (t : ℕ) (f : Fault) (g : Signalling) → IsSignalling g → IsSignalling (with_fault t f g) }
    ensures take_pending { (t s : ℕ) (g : Signalling) → IsSignalling g
        → IsSignalling (without_pending t s g) }
    ensures push_frame { (t s : ℕ) (g : Signalling) → IsSignalling g → IsSignalling (frame.entered t s g) }
    ensures pop_frame { (t : ℕ) (words : Option (List ℕ)) (g : Signalling) → IsSignalling g
        → IsSignalling (frame.returned t words g) }
    ensures mask_of { (t : ℕ) (g : Signalling) → IsSignalling g → IsMask (mask_of t g) }
{}

/// The signal that comes next to a thread is one from 1 to 31 that is pending and that it doesn't mask, and
/// no lower one is; where none comes, none is.
pub fn next_signal_is_the_lowest()
    ensures comes { (t s : ℕ) (g : Signalling) → next_for t g ≡ Some s → is_deliverable t g s ≡ true }
    ensures lowest { (t s : ℕ) (g : Signalling) → next_for t g ≡ Some s → 1 ≤ s }
    ensures highest { (t s : ℕ) (g : Signalling) → next_for t g ≡ Some s → s ≤ LAST_SIGNAL }
    ensures none_lower { (t s u : ℕ) (g : Signalling) → next_for t g ≡ Some s → 1 ≤ u → u < s
        → is_deliverable t g u ≡ false }
    ensures none { (t u : ℕ) (g : Signalling) → next_for t g ≡ None → 1 ≤ u → u ≤ LAST_SIGNAL
        → is_deliverable t g u ≡ false }
{}

/// What is done with one thread's signals leaves those of the others.
pub fn others_keep_their_signals()
    ensures mask { (t u mask : ℕ) (g : Signalling) → u ≢ t → mask_of u (with_mask t mask g) ≡ mask_of u g }
    ensures post { (t u s : ℕ) (g : Signalling) → u ≢ t → pending_of u (posted t s g) ≡ pending_of u g }
    ensures post_fault { (t u : ℕ) (f : Fault) (g : Signalling) → u ≢ t
        → pending_of u (with_fault t f g) ≡ pending_of u g }
    ensures take_pending { (t u s : ℕ) (g : Signalling) → u ≢ t
        → pending_of u (without_pending t s g) ≡ pending_of u g }
    ensures add_mask { (parent t u : ℕ) (g : Signalling) → u ≢ t
        → mask_of u (with_thread parent t g) ≡ mask_of u g }
    ensures add_pending { (parent t u : ℕ) (g : Signalling) → u ≢ t
        → pending_of u (with_thread parent t g) ≡ pending_of u g }
    ensures remove_mask { (t u : ℕ) (g : Signalling) → u ≢ t → mask_of u (forget t g) ≡ mask_of u g }
    ensures remove_pending { (t u : ℕ) (g : Signalling) → u ≢ t → pending_of u (forget t g) ≡ pending_of u g }
{}

/// What a thread masks, and what is pending for it, after what is done with its signals.
pub fn thread_has_its_signals()
    ensures mask { (t mask : ℕ) (g : Signalling) → is_held t g ≡ true
        → mask_of t (with_mask t mask g) ≡ mask }
    ensures post { (t s : ℕ) (g : Signalling) → is_held t g ≡ true → is_ignored s (action_of s g) ≡ false
        → pending_of t (posted t s g) ≡ joined (pending_of t g) (only s) }
    ensures post_fault { (t : ℕ) (f : Fault) (g : Signalling) → is_held t g ≡ true
        → pending_of t (with_fault t f g) ≡ joined (pending_of t g) (only f.signal) }
    ensures fault { (t : ℕ) (f : Fault) (g : Signalling) → is_held t g ≡ true
        → fault_of t f.signal (with_fault t f g) ≡ Some f }
    ensures take_pending { (t s : ℕ) (g : Signalling) → is_held t g ≡ true
        → pending_of t (without_pending t s g) ≡ less (pending_of t g) (only s) }
    ensures take_fault { (t s : ℕ) (g : Signalling) → is_held t g ≡ true
        → fault_of t s (without_pending t s g) ≡ None }
    ensures add_mask { (parent t : ℕ) (g : Signalling) → is_held t g ≡ false
        → mask_of t (with_thread parent t g) ≡ mask_of parent g }
    ensures add_pending { (parent t : ℕ) (g : Signalling) → is_held t g ≡ false
        → pending_of t (with_thread parent t g) ≡ 0 }
{}

/// A handler that returns while its frame stands as it was written goes on where it was interrupted: by the call at
/// the address to which it returns its frame is taken for one of its form, it is read as it was written, and it has
/// the thread's file and mask.
pub fn handler_returns_to_where_it_was()
    ensures form { (a : Action) (returning : Saved) → returning.pc ≡ frame.return_address a + 4
        → frame.returns_with_info returning ≡ frame.wants_info a }
    ensures frame { (byte : ℕ → Option ℕ) (s mask : ℕ) (a : Action) (fault : Option Fault) (saved returning : Saved)
        → IsFile saved → IsWord mask → (frame.wants_info a ≡ true → IsTold s fault)
        → frame.returns_with_info returning ≡ frame.wants_info a
        → frame.stack_pointer returning ≡ frame.stack_pointer (frame.handler_file s a saved)
        → CanReadFrame byte a saved
        → frame.frame_read (frame.after_frame true (frame.frame_writes s a fault saved mask) byte) returning
        ≡ Some (frame.frame_words saved mask) }
    ensures file { (mask : ℕ) (saved : Saved) → IsFile saved
        → frame.restored (frame.frame_words saved mask) ≡ saved }
    ensures mask { (mask : ℕ) (saved : Saved) → IsFile saved
        → frame.restored_mask (frame.frame_words saved mask) ≡ maskable mask }
{}

/// Sets have the signals that their words say: bit s - 1 is signal s.
#[tactic(auto, using(crate::proofs::SignalSets::sets))]
pub fn sets_have_their_signals()
    ensures joined { (a b s : ℕ) → has_signal (joined a b) s ≡ (has_signal a s || has_signal b s) }
    ensures less { (a b s : ℕ) → IsWord b → 1 ≤ s → s ≤ 64
        → has_signal (less a b) s ≡ (has_signal a s && not (has_signal b s)) }
    ensures only { (s : ℕ) → has_signal (only s) s ≡ true }
    ensures only_other { (s u : ℕ) → 1 ≤ s → 1 ≤ u → u ≢ s → has_signal (only s) u ≡ false }
{}
