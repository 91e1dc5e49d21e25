//! Sets of signals: bit s - 1 stands for signal s.

ghost use Rattle.std.specs.Prelude.{◌≡◌, ◌≤◌, find};
ghost use Rattle.mach_types.specs.Kernel.Signals as spec;
ghost use Rattle.signals.specs.Coming.{can_come};

use mach_types::signals::LAST_SIGNAL;

/// SIGKILL and SIGSTOP, which are never masked (sigprocmask(2)).
const NEVER_MASKED: u64 = 0x4_0100;

/// The set of one signal, 1 to 31.
pub fn only(sig: u8) -> u64
    requires lowest { 1 ≤ sig }
    requires highest { sig ≤ 31 }
    ensures { result ≡ spec.only sig }
{
    1u64 << (sig - 1)
}

/// Whether a signal, 1 to 31, is in a set.
pub fn has_signal(signals: u64, sig: u8) -> bool
    requires lowest { 1 ≤ sig }
    requires highest { sig ≤ 31 }
    ensures { result ≡ spec.has_signal signals sig }
{
    (signals >> (sig - 1)) % 2 == 1
}

/// The signals of two sets.
pub fn joined(signals: u64, others: u64) -> u64
    ensures { result ≡ spec.joined signals others }
{
    signals | others
}

/// The signals of a set that aren't in another one.
pub fn less(signals: u64, others: u64) -> u64
    ensures { result ≡ spec.less signals others }
{
    signals & !others
}

/// A set without the signals that are never masked.
pub fn maskable(signals: u64) -> u64
    ensures { result ≡ spec.maskable signals }
{
    less(signals, NEVER_MASKED)
}

/// Whether a signal, 1 to 31, is pending and not masked.
fn can_come(pending: u64, mask: u64, sig: u8) -> bool
    requires lowest { 1 ≤ sig }
    requires highest { sig ≤ 31 }
    ensures { result ≡ can_come pending mask sig }
{
    has_signal(pending, sig) && !has_signal(mask, sig)
}

/// The lowest signal that is pending and not masked; None exactly where there is none.
#[tactic(auto, using(crate::proofs::Lowest::from_the_first, crate::proofs::Lowest::found_here, crate::proofs::Lowest::found_later, crate::proofs::Lowest::none_left))]
pub fn lowest_deliverable(pending: u64, mask: u64) -> Option<u8>
    ensures { result ≡ find (can_come pending mask) spec.all_signals }
{
    for sig in 1..LAST_SIGNAL + 1 {
        if can_come(pending, mask, sig) {
            return Some(sig);
        }
    }
    None
}
