//! Whether the next instruction of a thread traps.

ghost use Rattle.std.specs.Prelude.{◌≡◌, ◌<◌, length};
ghost use Rattle.block_model.specs.Plain.{Plain, here_in_plain};
ghost use Rattle.block_model.specs.Setting.{Setting};
ghost use Rattle.process.specs.Refinement.{IsTied};
ghost use Rattle.prompt_runs.specs.Owed.{traps, traps_by};

use mach_types::Hart;
use process::{Code, Next, Parts, next_of};
use rv_inst::asks;

/// Whether an instruction traps: it is a call, or makes a fault.
fn traps_by(next: &Next) -> bool
    ensures { result ≡ traps_by next.now.effect next.now.fault }
{
    if next.fault.is_some() {
        return true;
    }
    match &next.effect {
        Some(effect) => asks(effect).is_call,
        None => false,
    }
}

/// Whether the next instruction of the thread on a hart, which must be one of the list, is a call or makes a fault.
/// No instruction of an idle hart does.
pub fn traps(parts: &Parts, code: &Code, hart: Hart) -> bool
    requires { hart.0 < length parts.now.harts.items }
    ensures { (s : Setting) (p : Plain) → IsTied s p parts.now → hart.0 < s.limits.harts
        → code.now ≡ s.program.pages → result ≡ traps (here_in_plain s p hart.0) }
{
    let state = &parts.harts[hart.0 as usize];
    if state.is_idle() {
        return false;
    }
    traps_by(&next_of(code, &parts.pages, state))
}
