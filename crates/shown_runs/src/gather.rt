//! The gathered log of a run.

ghost use Rattle.std.specs.Prelude.{◌≡◌, ◌<◌, All, IfOk};
ghost use Rattle.mach_types.specs.Limits.{InRange};
ghost use Rattle.elf_load.specs.Images.{IsBootable};
ghost use Rattle.block_model.specs.{Run.IsBlockRun, Setting.setting_of};
ghost use Rattle.log_gather.specs.Gathered.{gathered};

use block_view::ViewFault;
use elf_load::Image;
use log_gather::gather;
use mach_types::{Entry, Limits};
use machine_core::Machine;
use std::alloc::{AllocError, Global};

/// The gathered log of a run of this image, at whose end a machine is. It errs only for want of memory.
pub(crate) fn gathered_log(
    alloc: Global,
    image: &Image,
    limits: &Limits,
    machine: &Machine,
) -> Result<Vec<Entry>, AllocError>
    requires image { IsBootable limits.now.frames image.now }
    requires limits { InRange limits.now }
    requires setting { machine.now.setting ≡ setting_of image.now limits.now }
    requires run { IsBlockRun machine.now.setting machine.now.log }
    ensures gathered { IfOk result
        (λ log. log.items ≡ gathered machine.now.setting machine.now.log) }
    ensures harts { IfOk result (λ log. All (λ e. e.hart.0 < 8) log.items) }
{
    match gather(alloc, image, limits, machine.log()) {
        Ok(log) => Ok(log),
        Err(ViewFault::NoMemory) => Err(AllocError),
        Err(ViewFault::NotARun(_)) => unreachable!(),
    }
}
