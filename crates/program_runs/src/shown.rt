//! What is shown of a run.

ghost use Rattle.std.specs.Prelude.{◌≡◌, IfOk};
ghost use Rattle.mach_types.specs.Limits.{InRange};
ghost use Rattle.elf_load.specs.Images.{IsBootable};
ghost use Rattle.block_model.specs.Run.{IsBlockRun};
ghost use Rattle.command_words.specs.Commands.{IsShownAtEnd};
ghost use Rattle.command_words.specs.Kept.{run_said, shown_said};
ghost use Rattle.outcomes.specs.Outputs.{setting_for, shown_text};

use command_words::{Run, Shown};
use elf_load::Image;
use machine_core::Machine;
use run_texts::{Output, run_output};
use shown_runs::{acts_output, gathered_output, place_output};
use std::alloc::{AllocError, Global};

/// What is shown of a run that is asked for, at whose end a machine is. It must be something that is shown at the end of a run:
/// a summary and a trace are made while a script is played.
pub(crate) fn shown_text(
    alloc: Global,
    run: &Run,
    image: &Image,
    machine: Machine,
) -> Result<Output, AllocError>
    requires image { IsBootable run.now.limits.frames image.now }
    requires limits { InRange run.now.limits }
    requires setting { machine.setting ≡ setting_for (run_said run.now) image.now }
    requires run { IsBlockRun machine.setting machine.log }
    requires shown { IsShownAtEnd (shown_said run.now.shown) }
    ensures { IfOk result (λ output. output ≡ shown_text (shown_said run.now.shown) machine.setting machine.log) }
{
    match run.shown {
        Shown::Output => run_output(alloc, machine),
        Shown::Place(memory) => place_output(alloc, &memory, &machine),
        Shown::Acts => acts_output(alloc, image, &run.limits, &machine),
        Shown::Gathered => gathered_output(alloc, image, &run.limits, &machine),
        Shown::Summary | Shown::Trace(_) => unreachable!(),
    }
}
