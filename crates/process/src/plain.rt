//! Plain instructions, by which most events are made: a register is set, bytes that can be read are loaded,
//! or a store begins to wait. They are executed with one look at memory.

ghost use Rattle.std.specs.Prelude.{◌≡◌, Ok, IfNone, IfSome};
ghost use Rattle.rv_inst.specs.Meaning.{meaning};
ghost use Rattle.block_model.specs.Events.{done_of};
ghost use Rattle.block_model.specs.Stands.{Stand, here_at};
ghost use Rattle.page_map.specs.Map.{byte_in, can_write_in};
ghost use Rattle.process.specs.PlainSteps.{Fits, IsPlainStep, stepped};
ghost use Rattle.process.specs.Planned.{HasStep, IsNextStep};
ghost use Rattle.process.specs.Refinement.{HasCode, IsAfter, IsAlone, IsPlace, answer_to};

use crate::code::Code;
use crate::next::kept_instruction;
use crate::parts::{Parts, entry_of};
use hart_state::HartState;
use mach_types::{Choice, Entry, Hart, Kind, STORE_BUFFER_CAPACITY, Store, UserMem};
use page_map::PageMap;
use rv_exec::{effect, finish_load};
use rv_inst::{Effect, Inst};

/// What a plain instruction does to its hart.
#[derive(Clone, Copy, Drop)]
pub(crate) enum PlainStep {
    /// A register gets a value, and the thread goes on at a pc.
    Value {
        /// The register.
        rd: u8,
        /// The value.
        value: u64,
        /// The pc.
        pc: u64,
    },
    /// A store begins to wait, and the thread goes on 4 bytes further.
    Store(Store),
}

/// What an instruction does on a hart on which a thread runs that waits in no barrier, where
/// it is a plain one: it sets a register and the pc alone, loads bytes that can be read, or stores to bytes
/// that can be written while there is room for one more store to wait. None where it is another.
#[inline(always)]
fn plain_step(state: &HartState, pages: &PageMap, inst: &Inst) -> Option<PlainStep>
    ensures { IfSome result (IsPlainStep (byte_in pages.now) (can_write_in pages.now)
        (meaning inst.now state.now.file state.now.pc) state.now) }
{
    match effect(inst, &state.file, state.pc) {
        Effect::Next { rd, value, pc } => Some(PlainStep::Value { rd, value, pc }),
        Effect::Load {
            at,
            size,
            signed,
            rd,
        } => {
            let raw = state.buffer.look(pages, at, size)?;
            Some(PlainStep::Value {
                rd,
                value: finish_load(raw, size, signed),
                pc: state.pc.wrapping_add(4),
            })
        }
        Effect::Store { at, size, value } => {
            if state.buffer.len() < STORE_BUFFER_CAPACITY && pages.writable(at, size) {
                Some(PlainStep::Store(Store { at, size, value }))
            } else {
                None
            }
        }
        _ => None,
    }
}

/// Does to a hart what a plain instruction does.
#[inline(always)]
pub(crate) fn take_step(state: &mut HartState, step: PlainStep)
    requires { Fits step state.old }
    ensures { state.new ≡ stepped step state.old }
{
    match step {
        PlainStep::Value { rd, value, pc } => {
            state.file.set(rd, value);
            state.pc = pc;
        }
        PlainStep::Store(store) => {
            state.buffer.push(store);
            state.pc = state.pc.wrapping_add(4);
        }
    }
}

impl Parts {
    /// [`Parts::make`] of an `exec` of the thread on a hart, whose next instruction may be executed and is a plain
    /// one that does this: its entry.
    #[inline(always)]
    pub(crate) fn make_step(&mut self, hart: Hart, step: PlainStep) -> Entry
        requires { HasStep self.old hart.0 step }
        ensures answer { (v : Stand) → IsPlace v self.old hart.0 → IsNextStep v self.old hart.0 step
            → Ok result ≡ answer_to v hart.0 Choice.Exec }
        ensures after { (v : Stand) → IsPlace v self.old hart.0 → IsNextStep v self.old hart.0 step
            → IsAfter v hart.0 (done_of Choice.Exec (here_at v hart.0)) self.old self.new }
    {
        let state = &mut self.harts[hart.0 as usize];
        let made = entry_of(hart, Kind::Exec, state);
        take_step(state, step);
        state.ran += 1;
        self.count(hart);
        made
    }

    /// The same where the next instruction of the thread on a hart is one that the code keeps, a plain one that
    /// may be executed; else None, and nothing changes.
    #[inline(always)]
    pub(crate) fn make_plain(&mut self, code: &Code, hart: Hart) -> Option<Entry>
        requires { HasCode code.now self.old hart.0 }
        ensures answer { (v : Stand) → IsPlace v self.old hart.0 → IsAlone code.now v
            → IfSome result (λ e. Ok e ≡ answer_to v hart.0 Choice.Exec) }
        ensures after { (v : Stand) → IsPlace v self.old hart.0 → IsAlone code.now v → IfSome result
            (λ e. IsAfter v hart.0 (done_of Choice.Exec (here_at v hart.0)) self.old self.new) }
        ensures none { IfNone result (self.new ≡ self.old) }
    {
        let state = &self.harts[hart.0 as usize];
        if state.is_idle() || state.waits.is_some() {
            return None;
        }
        let Some(inst) = kept_instruction(code, state.pc) else {
            return None;
        };
        let Some(step) = plain_step(state, &self.pages, inst) else {
            return None;
        };
        Some(self.make_step(hart, step))
    }
}
