//! Local steps.

ghost use Rattle.std.specs.Prelude.{◌≡◌};
ghost use Rattle.std.specs.Option.{option_map};
ghost use Rattle.process.specs.Harts.{file_of};
ghost use Rattle.settling.specs.LocalFiles.{local_file};

use hart_state::HartState;
use process::{Code, effect_of_next};
use rv_inst::Effect;

/// Where the thread on a hart in this state goes on after its next instruction, where that touches registers
/// and the pc alone: it sets a register, or is a fence. None where it is another.
pub(crate) fn local_pc(code: &Code, state: &HartState) -> Option<u64>
    ensures { result ≡ option_map (λ f. f.pc) (local_file code.now (file_of state.now)) }
{
    match effect_of_next(code, state)? {
        Effect::Next { pc, .. } => Some(pc),
        Effect::Fence { .. } | Effect::FenceI => Some(state.pc.wrapping_add(4)),
        Effect::Load { .. }
        | Effect::Store { .. }
        | Effect::Amo { .. }
        | Effect::Lr { .. }
        | Effect::Sc { .. }
        | Effect::Call
        | Effect::Break
        | Effect::Misaligned => None,
    }
}
