//! A run on one hart by the fixed rule: an idle hart runs the first ready thread; else a signal that can be delivered is, once no
//! store waits; else the thread executes its next instruction where that is allowed, and else its oldest waiting store enters memory.

ghost use Rattle.std.specs.Prelude.{◌≡◌, ◌<◌, Some, IfOk};
ghost use Rattle.mach_types.specs.Limits.{InRange};
ghost use Rattle.elf_load.specs.Images.{IsBootable};
ghost use Rattle.block_model.specs.{Deciding.history, Solo.solo_choice, Solo.solo_rule, Setting.setting_of};
ghost use Rattle.whole_runs.specs.Runs.{IsSoloSoFar, IsSoloTurn, IsWholeSolo};

use elf_load::Image;
use mach_types::{Choice, Hart, Limits, Sight};
use machine_core::Machine;
use std::alloc::{AllocError, Global};

/// The only hart.
const HART: Hart = Hart(0);

/// The seed of a run that draws no choice.
const NO_SEED: u64 = 0;

/// Runs an image on one hart, until the run has ended or the log is full.
pub fn run_solo(alloc: Global, image: &Image, limits: Limits) -> Result<Machine, AllocError>
    requires image { IsBootable limits.frames image.now }
    requires limits { InRange limits }
    requires one_hart { limits.harts ≡ 1 }
    ensures { IfOk result (IsWholeSolo (setting_of image.now limits)) }
{
    let mut machine = Machine::boot(alloc, image, limits, NO_SEED)?;
    'events: while make_event(&mut machine) {}
    Ok(machine)
}

/// Makes the event that the rule chooses; false where the run is over.
///
/// Where no signal can be delivered an instruction comes first, since it is what comes most: one that is made was the rule's choice.
fn make_event(machine: &mut Machine) -> bool
    requires one_hart { machine.old.setting.limits.harts ≡ 1 }
    requires so_far { IsSoloSoFar machine.old }
    ensures { IsSoloTurn machine.old machine.new result }
{
    if machine.has_signal(HART) {
        return make_seen(machine);
    }
    match machine.step(HART, Choice::Exec) {
        Ok(_) => true,
        Err(_) => make_seen(machine),
    }
}

/// Makes the event that the rule chooses by what is seen of the hart; false where the run is over.
fn make_seen(machine: &mut Machine) -> bool
    requires one_hart { machine.old.setting.limits.harts ≡ 1 }
    requires so_far { IsSoloSoFar machine.old }
    ensures { IsSoloTurn machine.old machine.new result }
{
    match seen_choice(&machine.sight(HART)) {
        Some(choice) => make(machine, choice),
        None => false,
    }
}

/// The rule's choice by what is seen of the hart; None where the hart is idle and no thread is ready, and where its thread's
/// instruction isn't allowed and no store waits.
fn seen_choice(seen: &Sight) -> Option<Choice>
    ensures { result ≡ solo_rule seen.now }
{
    if seen.idle {
        Some(Choice::Run(seen.first_ready?))
    } else if seen.deliverable && seen.stores == 0 {
        Some(Choice::Signal)
    } else if !seen.deliverable && seen.exec_enabled {
        Some(Choice::Exec)
    } else if seen.stores > 0 {
        Some(Choice::Drain)
    } else {
        None
    }
}

/// Makes the event of the rule's choice; false where the run is over.
fn make(machine: &mut Machine, choice: Choice) -> bool
    requires one_hart { machine.old.setting.limits.harts ≡ 1 }
    requires so_far { IsSoloSoFar machine.old }
    requires chosen { solo_choice machine.old.setting (history machine.old.setting machine.old.log)
        ≡ Some choice }
    ensures { IsSoloTurn machine.old machine.new result }
{
    machine.step(HART, choice).is_ok()
}
