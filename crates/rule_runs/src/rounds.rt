//! A run by rounds: in each the harts 0, 1 and so on each make the event that `run` lets them choose, where they have one.

ghost use Rattle.std.specs.Prelude.{◌≡◌, IfOk, length, nat_lt};
ghost use Rattle.mach_types.specs.Limits.{InRange};
ghost use Rattle.elf_load.specs.Images.{IsBootable};
ghost use Rattle.block_model.specs.{Choosing.IsChosen, Run.IsBlockRun, Setting.setting_of};
ghost use Rattle.whole_runs.specs.Rounds.{IsWholeRounds, after_round};

use elf_load::Image;
use mach_types::{Hart, Limits};
use machine_core::Machine;
use std::alloc::{AllocError, Global};

/// Runs an image by rounds, until the run has ended or the log is full. The harts choose by the seed, and wait for nobody.
pub fn run_rounds(
    alloc: Global,
    image: &Image,
    limits: Limits,
    seed: u64,
) -> Result<Machine, AllocError>
    requires image { IsBootable limits.frames image.now }
    requires limits { InRange limits }
    ensures { IfOk result (IsWholeRounds (setting_of image.now limits) seed) }
{
    let mut machine = Machine::boot(alloc, image, limits, seed)?;
    'rounds: while make_round(&mut machine) {}
    Ok(machine)
}

/// Makes a round; false where no hart made an event.
fn make_round(machine: &mut Machine) -> bool
    requires run { IsBlockRun machine.old.setting machine.old.log }
    requires chosen { IsChosen machine.old.setting machine.old.seed machine.old.log }
    ensures round { machine.new ≡ record machine.old {
      log = after_round machine.old.setting machine.old.seed machine.old.log;
    } }
    ensures run { IsBlockRun machine.new.setting machine.new.log }
    ensures chosen { IsChosen machine.new.setting machine.new.seed machine.new.log }
    ensures made { result ≡ nat_lt (length machine.old.log) (length machine.new.log) }
{
    let before = machine.log().len();
    for hart in 0..machine.harts() {
        machine.advance(Hart(hart));
    }
    machine.log().len() > before
}
