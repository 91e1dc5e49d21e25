//! The threads that are held, each with its mask and what is pending for it.

ghost use Rattle.std.specs.Prelude.{◌≡◌, ◌≤◌, ◌==◌, None, not, map, filter, find};
ghost use Rattle.std.specs.List.{list_any};
ghost use Rattle.std.specs.Option.{option_map_or};
ghost use Rattle.mach_types.specs.Kernel.Signals as spec;

use crate::sets::{joined, less, only};
use arrayvec::ArrayVec;
use mach_types::{Fault, MOST_THREADS, ThreadSignals};

/// How many threads can be held.
pub const ROOM: usize = MOST_THREADS as usize;

/// The entry of a new thread: it has this mask, and nothing is pending.
pub fn new_entry(tid: u32, mask: u64) -> ThreadSignals
    ensures { result ≡ spec.new_thread tid mask }
{
    ThreadSignals {
        tid,
        mask,
        pending: 0,
        fault: None,
    }
}

/// Gives a list the threads of another.
pub fn copy(threads: &mut ArrayVec<ThreadSignals, ROOM>, other: &ArrayVec<ThreadSignals, ROOM>)
    ensures { threads.new.items ≡ other.now.items }
{
    threads.clear();
    let _ = threads.try_extend_from_slice(other);
}

/// A thread's entry.
fn entry_of(threads: &[ThreadSignals], tid: u32) -> Option<ThreadSignals>
    ensures { result ≡ find (spec.is_of tid) threads.now }
{
    for entry in threads {
        if entry.tid == tid {
            return Some(*entry);
        }
    }
    None
}

/// Whether a thread has an entry.
pub fn is_held(threads: &[ThreadSignals], tid: u32) -> bool
    ensures { result ≡ list_any (spec.is_of tid) threads.now }
{
    threads.iter().any(|entry| entry.tid == tid)
}

/// What a thread masks; nothing where it isn't held.
pub fn mask_of(threads: &[ThreadSignals], tid: u32) -> u64
    ensures { result ≡ option_map_or (λ th. th.mask) (find (spec.is_of tid) threads.now) 0 }
{
    match entry_of(threads, tid) {
        Some(entry) => entry.mask,
        None => 0,
    }
}

/// What is pending for a thread; nothing where it isn't held.
pub fn pending_of(threads: &[ThreadSignals], tid: u32) -> u64
    ensures { result ≡ option_map_or (λ th. th.pending) (find (spec.is_of tid) threads.now) 0 }
{
    match entry_of(threads, tid) {
        Some(entry) => entry.pending,
        None => 0,
    }
}

/// What a fault says, where it is of this signal.
fn fault_by(fault: Option<Fault>, sig: u8) -> Option<Fault>
    ensures { result ≡ spec.fault_by sig fault }
{
    match fault {
        Some(said) if said.signal == sig => Some(said),
        Some(_) | None => None,
    }
}

/// What the newest fault of a thread says, where it is of this signal; None also where the thread isn't held.
pub fn fault_of(threads: &[ThreadSignals], tid: u32, sig: u8) -> Option<Fault>
    ensures { result ≡ spec.fault_by sig (option_map_or (λ th. th.fault) (find (spec.is_of tid) threads.now) None) }
{
    match entry_of(threads, tid) {
        Some(entry) => fault_by(entry.fault, sig),
        None => None,
    }
}

/// Whether a signal is pending for any thread.
pub fn is_any_pending(threads: &[ThreadSignals]) -> bool
    ensures { result ≡ list_any (λ th. not (th.pending == 0)) threads.now }
{
    threads.iter().any(|entry| entry.pending != 0)
}

/// An entry, with this mask where it is the thread's.
fn masked(entry: ThreadSignals, tid: u32, mask: u64) -> ThreadSignals
    ensures { result ≡ spec.mask_if tid mask entry }
{
    if entry.tid == tid {
        ThreadSignals { mask, ..entry }
    } else {
        entry
    }
}

/// Gives a thread this mask.
pub fn set_mask(threads: &mut [ThreadSignals], tid: u32, mask: u64)
    ensures { threads.new ≡ map (spec.mask_if tid mask) threads.old }
{
    for entry in threads.iter_mut() {
        *entry = masked(*entry, tid, mask);
    }
}

/// An entry, with a signal pending where it is the thread's.
fn with_signal(entry: ThreadSignals, tid: u32, sig: u8) -> ThreadSignals
    requires lowest { 1 ≤ sig }
    requires highest { sig ≤ 31 }
    ensures { result ≡ spec.post_if tid sig entry }
{
    if entry.tid == tid {
        let pending = joined(entry.pending, only(sig));
        ThreadSignals { pending, ..entry }
    } else {
        entry
    }
}

/// Makes a signal, 1 to 31, pending for a thread.
pub fn post(threads: &mut [ThreadSignals], tid: u32, sig: u8)
    requires lowest { 1 ≤ sig }
    requires highest { sig ≤ 31 }
    ensures { threads.new ≡ map (spec.post_if tid sig) threads.old }
{
    for entry in threads.iter_mut() {
        *entry = with_signal(*entry, tid, sig);
    }
}

/// An entry, with a fault where it is the thread's.
fn with_fault(entry: ThreadSignals, tid: u32, fault: Fault) -> ThreadSignals
    requires lowest { 1 ≤ fault.signal }
    requires highest { fault.signal ≤ 31 }
    ensures { result ≡ spec.fault_if tid fault entry }
{
    if entry.tid == tid {
        let pending = joined(entry.pending, only(fault.signal));
        ThreadSignals {
            pending,
            fault: Some(fault),
            ..entry
        }
    } else {
        entry
    }
}

/// Makes the signal of a fault, 1 to 31, pending for a thread, with what the fault says.
pub fn post_fault(threads: &mut [ThreadSignals], tid: u32, fault: Fault)
    requires lowest { 1 ≤ fault.signal }
    requires highest { fault.signal ≤ 31 }
    ensures { threads.new ≡ map (spec.fault_if tid fault) threads.old }
{
    for entry in threads.iter_mut() {
        *entry = with_fault(*entry, tid, fault);
    }
}

/// What a fault says, unless it is of this signal.
fn without_fault(fault: Option<Fault>, sig: u8) -> Option<Fault>
    ensures { result ≡ spec.without_fault sig fault }
{
    match fault {
        Some(said) if said.signal != sig => Some(said),
        Some(_) | None => None,
    }
}

/// An entry without a pending signal, and without what its fault said.
fn without_signal(entry: ThreadSignals, sig: u8) -> ThreadSignals
    requires lowest { 1 ≤ sig }
    requires highest { sig ≤ 31 }
    ensures { result ≡ spec.without_signal sig entry }
{
    let pending = less(entry.pending, only(sig));
    let fault = without_fault(entry.fault, sig);
    ThreadSignals {
        pending,
        fault,
        ..entry
    }
}

/// An entry, without a pending signal where it is the thread's.
fn taken(entry: ThreadSignals, tid: u32, sig: u8) -> ThreadSignals
    requires lowest { 1 ≤ sig }
    requires highest { sig ≤ 31 }
    ensures { result ≡ spec.take_if tid sig entry }
{
    if entry.tid == tid {
        without_signal(entry, sig)
    } else {
        entry
    }
}

/// Takes a pending signal, 1 to 31, from a thread.
pub fn take_pending(threads: &mut [ThreadSignals], tid: u32, sig: u8)
    requires lowest { 1 ≤ sig }
    requires highest { sig ≤ 31 }
    ensures { threads.new ≡ map (spec.take_if tid sig) threads.old }
{
    for entry in threads.iter_mut() {
        *entry = taken(*entry, tid, sig);
    }
}

/// Drops a pending signal, 1 to 31, for all threads.
pub fn drop_signal(threads: &mut [ThreadSignals], sig: u8)
    requires lowest { 1 ≤ sig }
    requires highest { sig ≤ 31 }
    ensures { threads.new ≡ map (spec.without_signal sig) threads.old }
{
    for entry in threads.iter_mut() {
        *entry = without_signal(*entry, sig);
    }
}

/// Takes a thread's entry away.
pub fn remove(threads: &mut ArrayVec<ThreadSignals, ROOM>, tid: u32)
    ensures { threads.new.items ≡ filter (λ th. not (spec.is_of tid th)) threads.old.items }
{
    threads.retain(|entry| entry.tid != tid);
}
