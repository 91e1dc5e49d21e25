//! A run by workers, one for each hart: the harts take turns with one machine, and each makes the event that
//! `run` lets it choose.

ghost use Rattle.std.specs.Prelude.{◌≡◌, IfOk};
ghost use Rattle.mach_types.specs.Limits.{InRange};
ghost use Rattle.elf_load.specs.Images.{IsBootable};
ghost use Rattle.block_model.specs.Setting.{setting_of};
ghost use Rattle.whole_runs.specs.Runs.{IsWholeRun};

use crate::shared::Shared;
use elf_load::Image;
use hart_workers::drive;
use mach_types::Limits;
use machine_core::Machine;
use machine_lock::Turnstile;
use outside::Gate;
use std::alloc::{AllocError, Global};
use std::sync::Wait;
use std::thread::Threads;

/// Runs an image by workers, until the run has ended or the log is full.
///
/// Each hart chooses by the seed. The gate is passed once before each turn of a worker.
pub fn run_workers<R: Threads + Wait + Sync, G: Gate + Sync>(
    alloc: Global,
    rt: &R,
    image: &Image,
    limits: Limits,
    seed: u64,
    gate: &G,
) -> Result<Machine, AllocError>
    requires image { IsBootable limits.frames image.now }
    requires limits { InRange limits }
    ensures { IfOk result (IsWholeRun (setting_of image.now limits) seed) }
{
    let shared = Shared::new(alloc, Machine::boot(alloc, image, limits, seed)?)?;
    let (lock, mut pass) = Turnstile::new(alloc, shared, limits.harts)?;
    drive(alloc, rt, &lock, &mut pass, limits.harts, gate)?;
    Ok(lock.close(pass).into_machine())
}
