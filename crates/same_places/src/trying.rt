//! A choice that is tried at the end of a run.

ghost use Rattle.std.specs.Prelude.{◌≡◌, List, Some, IfErr, IfOk, OnErr};
ghost use Rattle.mach_types.specs.declared.events.Entry.{Entry};
ghost use Rattle.block_model.specs.Events.{refusal_of};
ghost use Rattle.block_model.specs.Plain.{here_in_plain, plain_after};
ghost use Rattle.block_model.specs.Setting.{Setting};
ghost use Rattle.same_places.specs.Places.{IsCarried};
ghost use Rattle.same_places.specs.Trying.{IsGoing, IsLonger, MayTry};

use crate::making::make_carried;
use mach_types::{Choice, Entry, Hart, Why};
use process::{Code, Parts};

/// Tries a choice at the end of a run. Where it is allowed, the run has one more entry, and the parts stand
/// at the place after it. Where it is refused, nothing changes. Either way it is carried to every place that
/// is the same.
///
/// # Errors
///
/// The first condition that the choice fails.
pub fn try_choice(parts: &mut Parts, code: &Code, hart: Hart, choice: Choice) -> Result<Entry, Why>
    requires { MayTry code.now parts.old hart.0 }
    ensures carried { (s : Setting) (log : List Entry) → IsGoing s log code.now parts.old hart.0
        → IsCarried s (plain_after s log) hart.0 choice }
    ensures ok { IfOk result (λ e. (s : Setting) (log : List Entry)
        → IsGoing s log code.now parts.old hart.0 → IsLonger s log hart.0 choice e parts.new) }
    ensures refused { IfErr result (λ why. (s : Setting) (log : List Entry)
        → IsGoing s log code.now parts.old hart.0
        → refusal_of choice (here_in_plain s (plain_after s log) hart.0) ≡ Some why) }
    ensures err { OnErr result (parts.new ≡ parts.old) }
{
    match make_carried(parts, code, hart, choice) {
        Ok(entry) => Ok(entry),
        Err(why) => Err(why),
    }
}
