//! The next instruction of a thread: its word, its effect, and its fault.

ghost use Rattle.std.specs.Prelude.{◌≡◌, ◌&&◌, ◌||◌, ◌==◌, Some, IfSome, false, is_some, length, not};
ghost use Rattle.std.specs.Option.{option_copied, option_map_or};
ghost use Rattle.rv_inst.specs.Sizes.{HasAccessSizes};
ghost use Rattle.block_model.specs.Instruction.{fetched as word_fetched, fetch_fault as fault_of_fetch, fault_by, instruction_of, next_effect, next_fault};
ghost use Rattle.process.specs.Harts.{file_of};
ghost use Rattle.rv_inst.specs.Class.{is_call, sets_register};

use crate::code::Code;
use hart_state::HartState;
use mach_types::signals::{SIGBUS, SIGILL, SIGSEGV};
use mach_types::{Regs, UserMem};
use rv_exec::effect;
use rv_inst::{Effect, Inst, asks};

/// What the next instruction of a thread asks for, where it was fetched and has a row, and the signal of its fault.
#[derive(Clone, Copy, Drop)]
pub struct Next {
    /// What it asks for; None where it was not fetched, or has no row.
    pub effect: Option<Effect>,
    /// The signal of its fault, where it makes one.
    pub fault: Option<u8>,
}

/// The word at a pc: instructions stand at multiples of 4.
fn fetched(code: &Code, pc: u64) -> Option<u32>
    ensures { result ≡ word_fetched code.now pc }
{
    if pc % 4 == 0 { code.fetch(pc) } else { None }
}

/// The instruction at a pc, where the code keeps it. None says nothing of what stands there.
#[inline(always)]
pub(crate) fn kept_instruction(code: &Code, pc: u64) -> Option<&Inst>
    ensures { IfSome result (λ inst. Some inst.now ≡ instruction_of (word_fetched code.now pc)) }
{
    if pc % 4 == 0 { code.kept(pc) } else { None }
}

/// The instruction at a pc, where a word is fetched there and has a row.
pub(crate) fn instruction_at(code: &Code, pc: u64) -> Option<Inst>
    ensures { result ≡ instruction_of (word_fetched code.now pc) }
{
    if pc % 4 == 0 {
        code.instruction(pc)
    } else {
        None
    }
}

/// The signal where nothing was fetched, or the word has no row.
fn fetch_fault(pc: u64, word: Option<u32>) -> u8
    ensures { result ≡ fault_of_fetch pc word }
{
    match word {
        Some(_) => SIGILL,
        None if pc % 4 == 0 => SIGSEGV,
        None => SIGBUS,
    }
}

/// The signal of the first fault of the next instruction of the thread on a hart in this state, which asks for this.
pub fn fault_of_next<M: UserMem>(
    code: &Code,
    memory: &M,
    state: &HartState,
    effect: Option<&Effect>,
) -> Option<u8>
    requires { IfSome (option_copied effect) HasAccessSizes }
    ensures { result ≡ fault_by (M.byte memory.now) (M.can_write memory.now) state.now.pc
        (word_fetched code.now state.now.pc) (option_copied effect.entry) }
{
    match effect {
        Some(effect) => state.fault_of(memory, effect),
        None => Some(fetch_fault(state.pc, fetched(code, state.pc))),
    }
}

/// Whether an instruction with this effect may be executed by the thread on a hart in this state whatever waits, and makes no fault
/// whatever memory is: it sets a register and does nothing else, and a thread runs there that waits in no barrier.
#[inline]
pub fn is_free(state: &HartState, effect: Option<&Effect>) -> bool
    ensures { result ≡ (option_map_or sets_register (option_copied effect.entry) false && is_some state.now.running
        && not (is_some state.now.waits)) }
{
    is_local(effect) && !state.is_idle() && state.waits.is_none()
}

/// Whether an instruction with this effect may be executed by the thread on a hart in this state whatever
/// memory is and whatever waits on other harts, also where it makes a fault: no store of the hart waits and it
/// is no call, or it sets a register and does nothing else; and a thread runs there that waits in no barrier.
#[inline]
pub fn is_open(state: &HartState, effect: Option<&Effect>) -> bool
    ensures { result ≡ (is_some state.now.running && not (is_some state.now.waits)
        && (length state.now.buffer == 0 && not (option_map_or is_call (option_copied effect.entry) false)
        || option_map_or sets_register (option_copied effect.entry) false)) }
{
    !state.is_idle()
        && state.waits.is_none()
        && (state.buffer.len() == 0 && !is_call(effect) || is_local(effect))
}

/// What the instruction at a pc asks for, with these registers. None exactly where nothing can be executed
/// there, or where the word there is no instruction.
#[inline(always)]
pub fn effect_at(code: &Code, file: &Regs, pc: u64) -> Option<Effect>
    ensures effect { result ≡ next_effect code.now (record { file = file.now; pc = pc }) }
    ensures sizes { IfSome result HasAccessSizes }
{
    match kept_instruction(code, pc) {
        Some(inst) => Some(effect(inst, file, pc)),
        None => other_effect(code, file, pc),
    }
}

/// [`effect_at`] of any instruction, also where the code doesn't keep it.
#[inline(never)]
pub(crate) fn other_effect(code: &Code, file: &Regs, pc: u64) -> Option<Effect>
    ensures effect { result ≡ next_effect code.now (record { file = file.now; pc = pc }) }
    ensures sizes { IfSome result HasAccessSizes }
{
    let inst = instruction_at(code, pc)?;
    Some(effect(&inst, file, pc))
}

/// What the next instruction of the thread on a hart in this state asks for. None exactly where nothing can be executed at its
/// pc, or where the word there is no instruction.
pub fn effect_of_next(code: &Code, state: &HartState) -> Option<Effect>
    ensures { result ≡ next_effect code.now (file_of state.now) }
{
    effect_at(code, &state.file, state.pc)
}

/// Whether an instruction with this effect sets a register and the pc, and does nothing else. Not so where there is no effect.
#[inline]
pub fn is_local(effect: Option<&Effect>) -> bool
    ensures { result ≡ option_map_or sets_register (option_copied effect.entry) false }
{
    match effect {
        Some(effect) => asks(effect).sets_register,
        None => false,
    }
}

/// Whether an instruction with this effect is a system call.
#[inline]
pub fn is_call(effect: Option<&Effect>) -> bool
    ensures { result ≡ option_map_or is_call (option_copied effect.entry) false }
{
    matches!(effect, Some(Effect::Call))
}

/// The next instruction of the thread on a hart in this state, over these pages of code and this memory: what it asks for, and
/// the signal of its fault.
#[inline(always)]
pub fn next_of<M: UserMem>(code: &Code, memory: &M, state: &HartState) -> Next
    ensures effect { result.effect ≡ next_effect code.now (file_of state.now) }
    ensures fault { result.fault
        ≡ next_fault code.now (M.byte memory.now) (M.can_write memory.now) (file_of state.now) }
    ensures sizes { IfSome result.effect HasAccessSizes }
{
    let effect = effect_at(code, &state.file, state.pc);
    let fault = fault_of_next(code, memory, state, effect.as_ref());
    Next { effect, fault }
}
