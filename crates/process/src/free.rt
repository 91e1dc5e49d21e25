//! Instructions that set a register and the pc and do nothing else, executed by one look at the instruction,
//! whatever waits and whatever memory is.

ghost use Rattle.std.specs.Prelude.{◌≡◌, Option, Ok, Some, is_some, slice_get, IfNone, IfSome};
ghost use Rattle.hart_state.specs.declared.hart.HartState.{HartState as State};
ghost use Rattle.block_model.specs.Events.{done_of};
ghost use Rattle.block_model.specs.Instruction.{next_effect};
ghost use Rattle.block_model.specs.Stands.{Stand, here_at};
ghost use Rattle.process.specs.Harts.{file_of};
ghost use Rattle.process.specs.PlainSteps.{goes_free, register_step};
ghost use Rattle.process.specs.Refinement.{HasCode, IsAfter, IsAlone, IsPlace, answer_to};

use crate::code::Code;
use crate::next::{kept_instruction, other_effect};
use crate::parts::Parts;
use crate::plain::PlainStep;
use hart_state::HartState;
use mach_types::{Choice, Entry, Hart};
use rv_exec::effect;
use rv_inst::Effect;

/// What an instruction with this effect does to its hart, where it sets a register and the pc and does
/// nothing else. None where it is another.
#[inline(always)]
fn step_of(effect: Effect) -> Option<PlainStep>
    ensures { result ≡ register_step (Some effect) }
{
    match effect {
        Effect::Next { rd, value, pc } => Some(PlainStep::Value { rd, value, pc }),
        Effect::Load { .. }
        | Effect::Store { .. }
        | Effect::Amo { .. }
        | Effect::Lr { .. }
        | Effect::Sc { .. }
        | Effect::Fence { .. }
        | Effect::FenceI
        | Effect::Call
        | Effect::Break
        | Effect::Misaligned => None,
    }
}

/// The same of the next instruction of the thread on a hart in this state.
#[inline(always)]
fn next_step(code: &Code, state: &HartState) -> Option<PlainStep>
    ensures { result ≡ register_step (next_effect code.now (file_of state.now)) }
{
    match kept_instruction(code, state.pc) {
        Some(inst) => step_of(effect(inst, &state.file, state.pc)),
        None => other_step(code, state),
    }
}

/// [`next_step`] of any instruction, also where the code doesn't keep it.
#[inline(never)]
fn other_step(code: &Code, state: &HartState) -> Option<PlainStep>
    ensures { result ≡ register_step (next_effect code.now (file_of state.now)) }
{
    match other_effect(code, &state.file, state.pc) {
        Some(effect) => step_of(effect),
        None => None,
    }
}

/// [`next_step`] where a thread runs on the hart that waits in no barrier, so that it is allowed; else None.
#[inline(always)]
fn free_step(code: &Code, state: &HartState) -> Option<PlainStep>
    ensures free { is_some result ≡ goes_free code.now state.now }
    ensures step { IfSome result
        (λ step. register_step (next_effect code.now (file_of state.now)) ≡ Some step) }
{
    if state.is_idle() {
        return None;
    }
    if state.waits.is_some() {
        return None;
    }
    next_step(code, state)
}

impl Parts {
    /// [`Parts::make`] of an `exec` of the thread on a hart, where one runs there that waits in no barrier, and
    /// its next instruction sets a register and the pc and does nothing else; so it is allowed. None exactly
    /// where that isn't so; then nothing changes.
    #[inline(always)]
    pub fn make_free(&mut self, code: &Code, hart: Hart) -> Option<Entry>
        requires { HasCode code.now self.old hart.0 }
        ensures free { (x : State) → slice_get self.old.harts.items hart.0 ≡ Some x
            → is_some result ≡ goes_free code.now x }
        ensures answer { (v : Stand) → IsPlace v self.old hart.0 → IsAlone code.now v
            → IfSome result (λ e. Ok e ≡ answer_to v hart.0 Choice.Exec) }
        ensures after { (v : Stand) → IsPlace v self.old hart.0 → IsAlone code.now v → IfSome result
            (λ e. IsAfter v hart.0 (done_of Choice.Exec (here_at v hart.0)) self.old self.new) }
        ensures none { IfNone result (self.new ≡ self.old) }
    {
        let state = &self.harts[hart.0 as usize];
        match free_step(code, state) {
            Some(step) => Some(self.make_step(hart, step)),
            None => None,
        }
    }
}
