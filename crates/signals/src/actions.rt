//! What is done when a signal comes, by the actions of all signals.

ghost use Rattle.std.specs.Prelude.{◌≡◌, ◌≤◌, ◌-◌, set, get_or};
ghost use Rattle.mach_types.specs.Kernel.Signals as spec;
ghost use Rattle.mach_types.specs.Kernel.SignalFrames as frames;

use crate::sets::{joined, maskable, only};
use mach_types::Action;
use mach_types::signals::{
    LAST_SIGNAL, SA_NODEFER, SA_RESETHAND, SIG_DFL, SIG_IGN, SIGCHLD, SIGCONT, SIGKILL, SIGSTOP,
    SIGURG, SIGWINCH,
};

/// How many signals there are.
pub const SIGNALS: usize = LAST_SIGNAL as usize;

/// The action of a signal, 1 to 31.
pub fn action_of(actions: &[Action], sig: u8) -> Action
    requires { 1 ≤ sig }
    ensures { result ≡ get_or actions.now (sig - 1) spec.default_action }
{
    let index = usize::from(sig - 1);
    if index < actions.len() {
        actions[index]
    } else {
        Action::default()
    }
}

/// Sets the action of a signal, 1 to 31.
pub fn set_action(actions: &mut [Action], sig: u8, new: Action)
    requires { 1 ≤ sig }
    ensures { actions.new ≡ set actions.old (sig - 1) new }
{
    let index = usize::from(sig - 1);
    if index < actions.len() {
        actions[index] = new;
    }
}

/// Whether the default of a signal is to ignore it (signal(7)).
fn is_ignored_by_default(sig: u8) -> bool
    ensures { result ≡ spec.is_ignored_by_default sig }
{
    sig == SIGCHLD || sig == SIGCONT || sig == SIGURG || sig == SIGWINCH
}

/// Whether an action of this signal ignores it.
pub fn is_ignored(sig: u8, action: Action) -> bool
    ensures { result ≡ spec.is_ignored sig action }
{
    action.at == SIG_IGN || (action.at == SIG_DFL && is_ignored_by_default(sig))
}

/// Whether sigaction(2) refuses: no signal has the number, or the action of SIGKILL or SIGSTOP would change.
pub fn refuses_action(sig: u8, new: Option<Action>) -> bool
    ensures { result ≡ spec.refuses_action sig new }
{
    sig == 0 || sig > LAST_SIGNAL || (new.is_some() && (sig == SIGKILL || sig == SIGSTOP))
}

/// The mask while the handler of a signal, 1 to 31, runs.
pub fn handler_mask(sig: u8, action: Action, mask: u64) -> u64
    requires lowest { 1 ≤ sig }
    requires highest { sig ≤ 31 }
    ensures { result ≡ frames.handler_mask sig action mask }
{
    let own = if action.flags & SA_NODEFER != 0 {
        0
    } else {
        only(sig)
    };
    maskable(joined(joined(mask, action.mask), own))
}

/// The action once its handler was entered: with SA_RESETHAND the default, flags and mask as they were.
pub fn entered_action(action: Action) -> Action
    ensures { result ≡ frames.entered_action action }
{
    if action.flags & SA_RESETHAND == 0 {
        return action;
    }
    Action {
        at: SIG_DFL,
        ..action
    }
}
