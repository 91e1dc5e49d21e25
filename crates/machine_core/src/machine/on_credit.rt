//! Instructions on credit: each sets a register and the pc alone, and no word is drawn for it.

ghost use Rattle.std.specs.Prelude.{◌≡◌, ◌<◌, ◌+◌, ◌^◌, ◌++◌, [], ◌∷◌, false, true, None, Some, IfSome, IfNone};
ghost use Rattle.std.specs.Option.{option_map};
ghost use Rattle.block_model.specs.Choosing.{IsChosen, has_ended, next_entry};
ghost use Rattle.block_model.specs.Deciding.{history};
ghost use Rattle.block_model.specs.Run.{IsBlockRun};
ghost use Rattle.block_model.specs.Stretches.{goes_on};
ghost use Rattle.machine_core.specs.Stretches.{executed, gone_on_credit, stretch_from};

use crate::machine::{Machine, append};
use hart_state::HartState;
use mach_types::{Entry, Hart, Kind};
use process::{Code, effect_at};
use rv_inst::Effect;

/// Executes the next instruction of the thread on a hart in this state, where it sets a register and the pc alone and the hart has credit
/// for it, and answers its entry. Else None, and nothing changes: so too where no thread runs there, or one waits in a barrier.
#[inline]
fn go_on_credit(code: &Code, hart: Hart, state: &mut HartState) -> Option<Entry>
    requires ran { state.old.ran + 1 < 2 ^ 32 }
    requires events { state.old.events + 1 < 2 ^ 32 }
    ensures goes { IfSome result (λ e. goes_on code.now (stretch_from hart.0 state.old) ≡ true) }
    ensures waits { IfSome result (λ e. state.old.waits ≡ None) }
    ensures entry { IfSome result
        (λ e. option_map (λ t. executed hart t state.old.pc) state.old.running ≡ Some e) }
    ensures state { IfSome result (λ e. state.new ≡ gone_on_credit code.now hart.0 state.old) }
    ensures none { IfNone result (state.new ≡ state.old) }
{
    let tid = state.running?;
    if state.waits.is_some() || state.credit == 0 {
        return None;
    }
    let at = state.pc;
    match effect_at(code, &state.file, at) {
        Some(Effect::Next { rd, value, pc }) => {
            state.file.set(rd, value);
            state.pc = pc;
            state.credit -= 1;
            state.ran += 1;
            state.events += 1;
            Some(Entry {
                hart,
                kind: Kind::Exec,
                tid,
                pc: at,
            })
        }
        _ => None,
    }
}

impl Machine {
    /// The next event of a hart of the machine, where the run goes on and the hart executes its next instruction on credit: its entry.
    /// Else None, and nothing changes. Each entry of the log was chosen by [`Machine::advance`].
    #[inline]
    pub(crate) fn execute_on_credit(&mut self, hart: Hart) -> Option<Entry>
        requires chosen { IsChosen self.old.setting self.old.seed self.old.log }
        requires goes { has_ended self.old.setting (history self.old.setting self.old.log) ≡ false }
        requires hart { hart.0 < self.old.setting.limits.harts }
        ensures next { IfSome result (λ e. next_entry self.old.setting self.old.seed hart.0
            (history self.old.setting self.old.log) ≡ Some e) }
        ensures log { IfSome result (λ e. self.new ≡ record self.old { log = self.old.log ++ e ∷ [] }) }
        ensures none { IfNone result (self.new ≡ self.old) }
        ensures block_run { IsBlockRun self.new.setting self.new.log }
    {
        let state = &mut self.parts.harts[hart.0 as usize];
        match go_on_credit(&self.code, hart, state) {
            Some(entry) => {
                append(&mut self.log, entry);
                Some(entry)
            }
            None => None,
        }
    }
}
