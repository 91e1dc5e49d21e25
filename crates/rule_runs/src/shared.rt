//! The machine that workers share: each entry of its log is the choice of its hart.

ghost use Rattle.std.specs.Prelude.{◌≡◌, ◌≤◌, ◌<◌, ◌^◌, true, length, IfOk};
ghost use Rattle.block_model.specs.Choosing.{IsChosen, all_chosen};
ghost use Rattle.block_model.specs.Deciding.{history};

use mach_types::{Advance, Hart};
use machine_core::{Code, Machine, Stretch, work};
use machine_lock::{Chronicle, Meaning};
use std::alloc::{AllocError, Global};

/// A machine that workers share by turns: each entry of its log is the choice of `run` at its place. (own)
#[derive(Drop)]
pub(crate) struct Shared {
    machine: Box<Machine>,
    ghost few: { length machine.value.log ≤ machine.value.setting.limits.steps },
    ghost small: { machine.value.setting.limits.steps < 2 ^ 32 },
    ghost chosen: { all_chosen machine.value.setting machine.value.seed
        (history machine.value.setting machine.value.log) ≡ true },
}

impl Shared {
    /// Lets a machine be shared. It stands behind a pointer, so that a turn doesn't move it.
    #[tactic(auto, unfolding(block_model::specs::Choosing::IsChosen))]
    pub(crate) fn new(alloc: Global, machine: Machine) -> Result<Shared, AllocError>
        requires chosen { IsChosen machine.setting machine.seed machine.log }
        requires few { length machine.log ≤ machine.setting.limits.steps }
        requires small { machine.setting.limits.steps < 2 ^ 32 }
        ensures machine { IfOk result (λ shared. shared.machine.value ≡ machine) }
    {
        let machine = Box::new(alloc, machine)?;
        Ok(Shared { machine })
    }

    /// The machine, which is shared no longer.
    pub(crate) fn into_machine(self) -> Machine
        ensures machine { result ≡ self.machine.value }
    {
        let Shared { machine } = self;
        Box::into_inner(machine)
    }
}

impl Meaning for Shared {
    ghost use Rattle.rule_runs.specs.Sharing.{Start, ended_in, log_in, next_in, start_in};

    ghost Setting = { Start };

    ghost setting = { start_in };

    ghost log = { log_in };

    ghost next = { next_in };

    ghost ended = { ended_in };
}

impl Chronicle for Shared {
    ghost use Rattle.std.specs.Prelude.{List, ◌++◌, IfSome};
    ghost use Rattle.std.specs.Option.{option_map};
    ghost use Rattle.std.proofs.Common.{◌∙◌, ap, append_assoc, subst, sym};
    ghost use Rattle.mach_types.specs.declared.events.Entry.{Entry};
    ghost use Rattle.block_model.specs.Stretches.{appended, lent};
    ghost use Rattle.block_model.proofs.Laws.{next_is_none};
    ghost use Rattle.machine_core.specs.Stretches.{stretch_of};
    ghost use Rattle.machine_lock.specs.Logs.{Adds};
    ghost use Rattle.rule_runs.specs.Sharing.{IsCodeOf, IsStretchIn, Start, log_in, next_in, start_in};

    type Code = Code;

    type Stretch = Stretch;

    ghost serves = { λ code shared. IsCodeOf (start_in shared).setting code };

    ghost fits = { λ stretch shared hart log. IsStretchIn (start_in shared) hart log stretch };

    #[tactic(auto, unfolding(block_model::specs::Choosing::IsChosen))]
    fn advance(&mut self, hart: Hart) -> Advance {
        self.machine.advance(hart)
    }

    fn made(&self) -> u32 {
        self.machine.log().len() as u32
    }

    fn code(&self, alloc: Global) -> Result<Code, AllocError> {
        self.machine.code(alloc)
    }

    #[tactic(auto, unfolding(block_model::specs::Choosing::IsChosen))]
    fn lend(&self, hart: Hart) -> Option<Stretch>
        ensures fits { IfSome result
            (λ stretch. IsStretchIn (start_in self.now) hart (log_in self.now) stretch) }
        ensures exact { let start = start_in self.now in option_map stretch_of result
            ≡ lent start.setting start.seed hart.0 (history start.setting (log_in self.now)) }
    {
        self.machine.lend_local(hart)
    }

    fn work(code: &Code, stretch: &mut Stretch) {
        work(code, stretch);
    }

    #[tactic(auto, unfolding(block_model::specs::Choosing::IsChosen))]
    fn append(&mut self, hart: Hart, stretch: Stretch) -> u32
        requires fits { IsStretchIn (start_in self.old) hart (log_in self.old) stretch }
        ensures setting { start_in self.new ≡ start_in self.old }
        ensures appended { Adds (next_in (start_in self.old)) hart result
            (log_in self.old) (log_in self.new) }
        ensures count { let s = (start_in self.old).setting in
            result ≡ appended s hart.0 (history s (log_in self.old)) (stretch_of stretch) }
    {
        self.machine.append_local(hart, stretch)
    }

    ghost serves_by_setting = { λ code a b same serves. subst
        (λ (start : Start). IsCodeOf start.setting code) same serves };

    ghost fits_by_setting = { λ stretch a b hart log same fits.
        subst (λ (start : Start). IsStretchIn start hart log stretch) same fits };

    ghost fits_later = { λ stretch shared hart log more fits.
        record {
          lent_at = fits.lent_at;
          since = fits.since ++ more;
          whole = sym (append_assoc fits.lent_at fits.since more)
              ∙ ap (λ (xs : List Entry). xs ++ more) fits.whole;
          first = fits.first;
          began = fits.began;
          times = fits.times;
          so_far = fits.so_far;
        } };

    ghost still = { λ shared log hart end. let start = start_in shared in
        next_is_none start.setting start.seed log hart.0 end };
}
