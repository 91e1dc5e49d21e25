//! An exploration, one run after the other.

ghost use Rattle.std.specs.Prelude.{◌≡◌, ◌≤◌, IfOk};
ghost use Rattle.mach_types.specs.Limits.{InRange};
ghost use Rattle.elf_load.specs.Images.{IsBootable};
ghost use Rattle.block_model.specs.Setting.{setting_of};
ghost use Rattle.explored_runs.specs.Explored.{IsExplored};

use crate::exploration::Exploration;
use crate::explored::Explored;
use crate::made::make_run;
use crate::saying::{progress_of, say_limited, say_outcomes};
use drawn_machine::DrawnRun;
use elf_load::Image;
use mach_types::Limits;
use outside::Sink;
use std::alloc::{AllocError, Global};

/// Makes the runs of an exploration, one after the other, and tells what they come to.
///
/// Fails only where memory is short. No more is kept than the outcomes that are told apart. The sink hears how far it is, and where
/// that takes long what was found so far; nothing is put there.
pub fn explore<K: Sink>(
    alloc: Global,
    image: &Image,
    limits: Limits,
    exploration: &Exploration,
    sink: &K,
) -> Result<Explored, AllocError>
    requires image { IsBootable limits.frames image.now }
    requires limits { InRange limits }
    requires runs { exploration.now.runs ≤ 1000000000 }
    ensures { IfOk result (IsExplored (setting_of image.now limits) exploration.now) }
{
    let mut explored = Explored::nothing(alloc)?;
    let mut run = DrawnRun::at_start(alloc, image, limits, exploration.first)?;
    let mut said = 0;
    'runs: while explored.runs < exploration.runs && !explored.has_enough(exploration.until) {
        if sink.show_progress(&progress_of(&explored, exploration.runs)) {
            said = say_outcomes(alloc, sink, &explored.found, said);
        }
        let made = make_run(alloc, &mut run, image, limits, exploration, explored.runs)?;
        explored.tell(made)?;
    }
    if sink.show_progress(&progress_of(&explored, exploration.runs)) {
        say_limited(alloc, sink, &explored, limits.steps);
    }
    Ok(explored)
}
