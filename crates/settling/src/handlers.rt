//! Whether a handler may be entered.

ghost use Rattle.std.specs.Prelude.{◌≡◌};
ghost use Rattle.settling.specs.Handlers.{has_no_handler};

use process::is_handler;
use signals::Signals;

/// Whether no signal has a handler, so that none can be entered.
pub fn has_no_handler(signals: &Signals) -> bool
    ensures { result ≡ has_no_handler signals.now }
{
    signals.actions().iter().all(|action| !is_handler(*action))
}
