//! Instructions that set a register and the pc alone, made by one look at the instruction.

ghost use Rattle.std.specs.Prelude.{◌≡◌, ◌<◌, ◌++◌, [], ◌∷◌, false, is_some, Ok, IfNone, IfSome};
ghost use Rattle.mach_types.specs.Events.{choice_of};
ghost use Rattle.block_model.specs.Choosing.{IsChosen, has_ended};
ghost use Rattle.block_model.specs.Deciding.{decide, history};
ghost use Rattle.block_model.specs.History.{here_in_history};
ghost use Rattle.machine_core.specs.Free.{goes_freely};

use crate::machine::{Machine, append};
use mach_types::{Choice, Entry, Hart};

impl Machine {
    /// [`Machine::step`] of an `exec` on a hart of the machine, where the run goes on and the hart goes
    /// freely (`goes_freely`): its entry. None exactly where it doesn't go freely; then nothing
    /// changes.
    #[inline(always)]
    pub fn step_freely(&mut self, hart: Hart) -> Option<Entry>
        requires goes { has_ended self.old.setting (history self.old.setting self.old.log) ≡ false }
        requires hart { hart.0 < self.old.setting.limits.harts }
        ensures free { is_some result
            ≡ goes_freely (here_in_history self.old.setting (history self.old.setting self.old.log) hart.0) }
        ensures answer { IfSome result
            (λ e. decide self.old.setting (history self.old.setting self.old.log) hart.0 Choice.Exec ≡ Ok e) }
        ensures of { IfSome result (λ e. (e.hart ≡ hart) × (choice_of e ≡ Choice.Exec)) }
        ensures log { IfSome result (λ e. self.new ≡ record self.old { log = self.old.log ++ e ∷ [] }) }
        ensures none { IfNone result (self.new ≡ self.old) }
    {
        if self.is_chosen() {
            return self.step_freely_chosen(hart);
        }
        match self.parts.make_free(&self.code, hart) {
            Some(entry) => {
                append(&mut self.log, entry);
                Some(entry)
            }
            None => None,
        }
    }

    /// The same where every entry so far was the choice of its hart.
    #[inline(never)]
    fn step_freely_chosen(&mut self, hart: Hart) -> Option<Entry>
        requires chosen { IsChosen self.old.setting self.old.seed self.old.log }
        requires goes { has_ended self.old.setting (history self.old.setting self.old.log) ≡ false }
        requires hart { hart.0 < self.old.setting.limits.harts }
        ensures free { is_some result
            ≡ goes_freely (here_in_history self.old.setting (history self.old.setting self.old.log) hart.0) }
        ensures answer { IfSome result
            (λ e. decide self.old.setting (history self.old.setting self.old.log) hart.0 Choice.Exec ≡ Ok e) }
        ensures of { IfSome result (λ e. (e.hart ≡ hart) × (choice_of e ≡ Choice.Exec)) }
        ensures log { IfSome result (λ e. self.new ≡ record self.old { log = self.old.log ++ e ∷ [] }) }
        ensures none { IfNone result (self.new ≡ self.old) }
    {
        if !self.goes_freely(hart) {
            return None;
        }
        match self.step_chosen(hart, Choice::Exec) {
            Ok(entry) => Some(entry),
            Err(_) => unreachable!(),
        }
    }
}
