//! Handlers of signals: which thread has one.

ghost use Rattle.std.specs.Prelude.{◌≡◌, ◌≤◌, IsTrue};
ghost use Rattle.mach_types.specs.Kernel.Signals.{has_signal, is_handler, is_held};
ghost use Rattle.mach_types.specs.declared.signals.TheConstants.{LAST_SIGNAL};
ghost use Rattle.process.specs.Delivering.{has_handler_in};

use mach_types::signals::{SIG_DFL, SIG_IGN};
use mach_types::{Action, Tid};
use signals::Signals;

/// Whether an action is a handler.
pub fn is_handler(action: Action) -> bool
    ensures { result ≡ is_handler action }
{
    action.at != SIG_DFL && action.at != SIG_IGN
}

/// Whether a signal, 1 to 31, is in a mask.
fn is_masked(mask: u64, signal: u8) -> bool
    requires lowest { 1 ≤ signal }
    requires highest { signal ≤ LAST_SIGNAL }
    ensures { result ≡ has_signal mask signal }
{
    (mask >> (signal - 1)) % 2 == 1
}

/// Whether a thread has a handler for the signal, 1 to 31, of its fault: it doesn't mask the signal, whose action is a handler.
pub fn has_handler(signals: &Signals, tid: Tid, signal: u8) -> bool
    requires held { IsTrue (is_held tid.0 signals.now) }
    requires lowest { 1 ≤ signal }
    requires highest { signal ≤ LAST_SIGNAL }
    ensures { result ≡ has_handler_in tid.0 signal signals.now }
{
    !is_masked(signals.mask_of(tid), signal) && is_handler(signals.action(signal))
}
