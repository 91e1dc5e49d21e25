//! The table of actions, masks and pending signals.

ghost use Rattle.std.specs.Prelude.{◌≡◌, ℕ, is_some, ◌≤◌, ◌<◌, ◌↔◌, if◌then◌else◌, false, length, IsTrue, IsErr, IfErr, IfOk, IfSome, OnOk, OnErr};
ghost use Rattle.std.specs.Bool.{OnTrue, OnFalse};
ghost use Rattle.mach_types.specs.Kernel.SignalFrames as frame;
ghost use Rattle.mach_types.specs.Kernel.Signals as spec;
ghost use Rattle.mach_types.specs.declared.errors.TheConstants.{EINVAL};
ghost use Rattle.mach_types.specs.declared.kernel_words.TheConstants.{MOST_THREADS};
ghost use Rattle.mach_types.specs.declared.signals.TheConstants.{LAST_SIGNAL};

use crate::actions::{self, SIGNALS, entered_action, handler_mask, is_ignored, refuses_action};
use crate::frames::{self, FrameWrites};
use crate::sets::{joined, less, lowest_deliverable, maskable};
use crate::threads::{self, ROOM};
use arrayvec::ArrayVec;
use mach_types::errors::EINVAL;
use mach_types::signals::{LAST_SIGNAL, SIG_BLOCK, SIG_SETMASK, SIG_UNBLOCK};
use mach_types::{Action, Errno, Fault, Saved, ThreadSignals, Tid, UserMem};
use std::marker::Model;

/// The actions of the signals 1 to 31, and the mask and the pending signals of each thread that is held, at
/// most 64.
#[derive(Drop)]
pub struct Signals {
    actions: [Action; SIGNALS],
    threads: ArrayVec<ThreadSignals, ROOM>,
    /// False only where nothing is pending for any thread: then no thread is looked for.
    may_be_pending: bool,
}

impl Model for Signals {
    ghost use Rattle.mach_types.specs.Kernel.Signals.{Signalling};
    ghost use Rattle.signals.specs.Holding.{IsKept};

    ghost Value = { Signalling };

    ghost view = { λ s. record { actions = s.actions; threads = s.threads.items } };

    ghost invariant = { λ s. IsKept s.may_be_pending
        (record { actions = s.actions; threads = s.threads.items }) };
}

/// The mask that sigprocmask(2) makes of a mask, by `how`; None exactly where `how` isn't one of three.
fn changed_mask(how: u32, signals: u64, mask: u64) -> Option<u64>
    ensures { result ≡ (if spec.refuses_how how then None else Some (spec.changed_mask how signals mask)) }
{
    let changed = match how {
        SIG_BLOCK => joined(mask, signals),
        SIG_UNBLOCK => less(mask, signals),
        SIG_SETMASK => signals,
        _ => return None,
    };
    Some(maskable(changed))
}

impl Signals {
    /// Thread 1 alone: each action is the default, nothing is masked, and nothing is pending.
    pub fn new() -> Signals
        ensures { result ≡ spec.start_signalling }
    {
        let mut threads = ArrayVec::new();
        threads.push(threads::new_entry(1, 0));
        Signals {
            actions: [Action::default(); SIGNALS],
            threads,
            may_be_pending: false,
        }
    }

    /// The actions of the signals 1 to 31.
    pub fn actions(&self) -> &[Action]
        ensures { result.now ≡ self.now.actions }
    {
        &self.actions
    }

    /// The mask and the pending signals of each thread that is held.
    pub fn threads(&self) -> &[ThreadSignals]
        ensures { result.now ≡ self.now.threads }
    {
        &self.threads
    }

    /// Thread 1 alone again, as in a new table: each action is the default, nothing is masked, and nothing is
    /// pending.
    pub fn reset(&mut self)
        ensures { self.new ≡ spec.start_signalling }
    {
        self.actions = [Action::default(); SIGNALS];
        self.threads.clear();
        self.threads.push(threads::new_entry(1, 0));
        self.may_be_pending = false;
    }

    /// The actions and the threads of another table, in place of its own. It takes no memory.
    pub fn copy_from(&mut self, other: &Signals)
        ensures { self.new ≡ other.now }
    {
        self.actions = other.actions;
        threads::copy(&mut self.threads, &other.threads);
        self.may_be_pending = other.may_be_pending;
    }

    /// Holds a new thread, with its parent's mask and nothing pending (clone(2), signal(7)).
    pub fn add(&mut self, parent: Tid, tid: Tid)
        requires parent { IsTrue (spec.is_held parent.0 self.old) }
        requires not_held { spec.is_held tid.0 self.old ≡ false }
        requires room { length self.old.threads < MOST_THREADS }
        ensures { self.new ≡ spec.with_thread parent.0 tid.0 self.old }
    {
        let mask = self.mask_of(parent);
        self.threads.push(threads::new_entry(tid.0, mask));
    }

    /// Forgets a thread (exit(2)).
    pub fn remove(&mut self, tid: Tid)
        requires { IsTrue (spec.is_held tid.0 self.old) }
        ensures { self.new ≡ spec.forget tid.0 self.old }
    {
        threads::remove(&mut self.threads, tid.0);
        self.may_be_pending = threads::is_any_pending(&self.threads);
    }

    /// Whether a thread is held.
    pub fn is_held(&self, tid: Tid) -> bool
        ensures { result ≡ spec.is_held tid.0 self.now }
    {
        threads::is_held(&self.threads, tid.0)
    }

    /// What a thread masks.
    pub fn mask_of(&self, tid: Tid) -> u64
        requires { IsTrue (spec.is_held tid.0 self.now) }
        ensures { result ≡ spec.mask_of tid.0 self.now }
    {
        threads::mask_of(&self.threads, tid.0)
    }

    /// The signals that are pending for a thread: bit s - 1 stands for signal s, as in a mask.
    pub fn pending_of(&self, tid: Tid) -> u64
        requires { IsTrue (spec.is_held tid.0 self.now) }
        ensures { result ≡ spec.pending_of tid.0 self.now }
    {
        threads::pending_of(&self.threads, tid.0)
    }

    /// What is done when a signal, 1 to 31, comes.
    pub fn action(&self, sig: u8) -> Action
        requires lowest { 1 ≤ sig }
        requires highest { sig ≤ LAST_SIGNAL }
        ensures { result ≡ spec.action_of sig self.now }
    {
        actions::action_of(&self.actions, sig)
    }

    /// Answers the action of a signal, and sets a new one where one is given; a new one that ignores the
    /// signal drops it for all threads (sigaction(2)).
    ///
    /// EINVAL exactly where the signal isn't 1 to 31, or a new action is given for SIGKILL or SIGSTOP; then
    /// nothing changes.
    pub fn act(&mut self, sig: u8, new: Option<Action>) -> Result<Action, Errno>
        ensures refused { IsErr result ↔ IsTrue (spec.refuses_action sig new) }
        ensures errno { IfErr result (λ e. e ≡ EINVAL) }
        ensures old { IfOk result (λ a. a ≡ spec.action_of sig self.old) }
        ensures ok { OnOk result (self.new ≡ spec.acted sig new self.old) }
        ensures err { OnErr result (self.new ≡ self.old) }
    {
        if refuses_action(sig, new) {
            return Err(EINVAL);
        }
        let old = self.action(sig);
        if let Some(action) = new {
            self.set_action(sig, action);
        }
        Ok(old)
    }

    /// Sets an action; one that ignores the signal drops it for all threads.
    fn set_action(&mut self, sig: u8, new: Action)
        requires lowest { 1 ≤ sig }
        requires highest { sig ≤ LAST_SIGNAL }
        ensures { self.new ≡ spec.with_action sig new self.old }
    {
        actions::set_action(&mut self.actions, sig, new);
        if is_ignored(sig, new) {
            threads::drop_signal(&mut self.threads, sig);
            self.may_be_pending = threads::is_any_pending(&self.threads);
        }
    }

    /// Answers what a thread masks, and changes it: by `how`, signals are added (0), taken away (1), or are
    /// the mask (2). SIGKILL and SIGSTOP are never masked (sigprocmask(2)).
    ///
    /// EINVAL exactly where `how` is another number; then nothing changes.
    pub fn mask(&mut self, tid: Tid, how: u32, set: u64) -> Result<u64, Errno>
        requires { IsTrue (spec.is_held tid.0 self.old) }
        ensures refused { IsErr result ↔ IsTrue (spec.refuses_how how) }
        ensures errno { IfErr result (λ e. e ≡ EINVAL) }
        ensures old { IfOk result (λ m. m ≡ spec.mask_of tid.0 self.old) }
        ensures ok { OnOk result (
            self.new
            ≡ spec.with_mask tid.0 (spec.changed_mask how set (spec.mask_of tid.0 self.old)) self.old) }
        ensures err { OnErr result (self.new ≡ self.old) }
    {
        let old = self.mask_of(tid);
        let Some(new) = changed_mask(how, set, old) else {
            return Err(EINVAL);
        };
        threads::set_mask(&mut self.threads, tid.0, new);
        Ok(old)
    }

    /// Posts a signal, 1 to 31, to a thread: it is pending, or dropped where its action ignores it
    /// (tkill(2)).
    pub fn post(&mut self, tid: Tid, sig: u8)
        requires held { IsTrue (spec.is_held tid.0 self.old) }
        requires lowest { 1 ≤ sig }
        requires highest { sig ≤ LAST_SIGNAL }
        ensures { self.new ≡ spec.posted tid.0 sig self.old }
    {
        if !is_ignored(sig, self.action(sig)) {
            threads::post(&mut self.threads, tid.0, sig);
            self.may_be_pending = true;
        }
    }

    /// A thread faults: the signal of the fault, 1 to 31, is pending for it, with what the fault says. Its action must be a
    /// handler: none that ignores it is asked.
    pub fn post_fault(&mut self, tid: Tid, fault: Fault)
        requires held { IsTrue (spec.is_held tid.0 self.old) }
        requires lowest { 1 ≤ fault.signal }
        requires highest { fault.signal ≤ LAST_SIGNAL }
        ensures { self.new ≡ spec.with_fault tid.0 fault self.old }
    {
        threads::post_fault(&mut self.threads, tid.0, fault);
        self.may_be_pending = true;
    }

    /// What the pending signal of a thread says of its fault; None where it was posted, and where it isn't pending.
    pub fn fault_of(&self, tid: Tid, sig: u8) -> Option<Fault>
        requires { IsTrue (spec.is_held tid.0 self.now) }
        ensures { result ≡ spec.fault_of tid.0 sig self.now }
    {
        threads::fault_of(&self.threads, tid.0, sig)
    }

    /// The lowest signal that is pending for a thread and that it doesn't mask; None exactly where there is
    /// none.
    pub fn next_for(&self, tid: Tid) -> Option<u8>
        requires { IsTrue (spec.is_held tid.0 self.now) }
        ensures { result ≡ spec.next_for tid.0 self.now }
    {
        if !self.may_be_pending {
            return None;
        }
        let mask = threads::mask_of(&self.threads, tid.0);
        let pending = threads::pending_of(&self.threads, tid.0);
        lowest_deliverable(pending, mask)
    }

    /// Takes a pending signal, 1 to 31, from a thread.
    pub fn take_pending(&mut self, tid: Tid, sig: u8)
        requires held { IsTrue (spec.is_held tid.0 self.old) }
        requires lowest { 1 ≤ sig }
        requires highest { sig ≤ LAST_SIGNAL }
        ensures { self.new ≡ spec.without_pending tid.0 sig self.old }
    {
        threads::take_pending(&mut self.threads, tid.0, sig);
        self.may_be_pending = threads::is_any_pending(&self.threads);
    }

    /// Enters the handler of a signal, 1 to 31, of a fault or of none, in a thread with this file: the frame is written
    /// below its stack, the file becomes that with which the handler starts, the signal and those of the action are
    /// masked, and with SA_RESETHAND the action becomes the default. What is pending stays (sigaction(2)).
    ///
    /// False exactly where the frame can't be written, and then nothing changes.
    pub fn push_frame<M: UserMem>(
        &mut self,
        mem: &mut M,
        tid: Tid,
        sig: u8,
        fault: Option<Fault>,
        saved: &mut Saved,
    ) -> bool
        requires held { IsTrue (spec.is_held tid.0 self.old) }
        requires lowest { 1 ≤ sig }
        requires highest { sig ≤ LAST_SIGNAL }
        requires handler { IsTrue (spec.is_handler (spec.action_of sig self.old)) }
        ensures answer { result
            ≡ frame.can_write_frame (M.can_write mem.old) (spec.action_of sig self.old) saved.old }
        ensures signals { OnTrue result (self.new ≡ frame.entered tid.0 sig self.old) }
        ensures same_signals { OnFalse result (self.new ≡ self.old) }
        ensures file { OnTrue result
            (saved.new ≡ frame.handler_file sig (spec.action_of sig self.old) saved.old) }
        ensures same_file { OnFalse result (saved.new ≡ saved.old) }
        ensures bytes { (a : ℕ) → M.byte mem.new a
            ≡ frame.after_frame result
            (frame.frame_writes sig (spec.action_of sig self.old) fault saved.old (spec.mask_of tid.0 self.old))
            (M.byte mem.old) a }
        ensures permissions { (a : ℕ) → M.can_write mem.new a ≡ M.can_write mem.old a }
        ensures alike { M.IsAlike mem.old mem.new }
    {
        let mask = self.mask_of(tid);
        let action = self.action(sig);
        if !frames::write(mem, sig, action, fault, saved, mask) {
            return false;
        }
        *saved = frames::handler_file(sig, action, saved);
        threads::set_mask(&mut self.threads, tid.0, handler_mask(sig, action, mask));
        actions::set_action(&mut self.actions, sig, entered_action(action));
        true
    }

    /// The writes that [`Signals::push_frame`] makes to the stack of a thread with this file, in its order; None
    /// exactly where it would answer false. Nothing is written.
    pub fn frame_writes<M: UserMem>(
        &self,
        mem: &M,
        tid: Tid,
        sig: u8,
        fault: Option<Fault>,
        saved: &Saved,
    ) -> Option<FrameWrites>
        requires held { IsTrue (spec.is_held tid.0 self.now) }
        requires lowest { 1 ≤ sig }
        requires highest { sig ≤ LAST_SIGNAL }
        ensures answer { is_some result
            ≡ frame.can_write_frame (M.can_write mem.now) (spec.action_of sig self.now) saved.now }
        ensures writes { IfSome result (λ writes. writes.items ≡ frame.frame_writes sig (spec.action_of sig self.now)
            fault saved.now (spec.mask_of tid.0 self.now)) }
    {
        frames::frame_writes(mem, sig, self.action(sig), fault, saved, self.mask_of(tid))
    }

    /// How many bytes the frame of the handler of a signal, 1 to 31, has.
    pub fn frame_size(&self, sig: u8) -> u64
        requires lowest { 1 ≤ sig }
        requires highest { sig ≤ LAST_SIGNAL }
        ensures { result ≡ frame.frame_size (spec.action_of sig self.now) }
    {
        frames::frame_size(self.action(sig))
    }

    /// Returns from a handler: a thread goes on with the file and the mask in the frame at its stack pointer
    /// (sigreturn(2)).
    ///
    /// False exactly where the frame can't be read, and then nothing changes.
    pub fn pop_frame<M: UserMem>(&mut self, mem: &M, tid: Tid, saved: &mut Saved) -> bool
        requires held { IsTrue (spec.is_held tid.0 self.old) }
        ensures answer { result ≡ is_some (frame.frame_read (M.byte mem.now) saved.old) }
        ensures signals { self.new
            ≡ frame.returned tid.0 (frame.frame_read (M.byte mem.now) saved.old) self.old }
        ensures file { saved.new
            ≡ frame.saved_after_return (frame.frame_read (M.byte mem.now) saved.old) saved.old }
    {
        let Some(words) = frames::read(mem, saved) else {
            return false;
        };
        *saved = frames::restored(&words);
        threads::set_mask(&mut self.threads, tid.0, frames::restored_mask(&words));
        true
    }
}
