//! One of the two processes of a pair.

ghost use Rattle.std.specs.Prelude.{◌≡◌, ◌<◌, ◌≤◌, IfOk, None, if◌then◌else◌, is_none, is_some, length};
ghost use Rattle.mach_types.specs.Kernel.Threads.{running_on};
ghost use Rattle.mach_types.specs.Limits.{InRange};
ghost use Rattle.elf_load.specs.Images.{IsBootable};
ghost use Rattle.elf_load.specs.Start.{program_of};
ghost use Rattle.block_model.specs.Calls.Barriers.{running_harts};
ghost use Rattle.block_model.specs.Plain.{Plain, plain_over, plain_start};
ghost use Rattle.block_model.specs.Setting.{Setting, setting_of};
ghost use Rattle.process.specs.Refinement.{IsTied};
ghost use Rattle.shared_procs.specs.Halves.{program_in};
ghost use Rattle.shared_procs.specs.PairRuns.{has_ended};

use elf_load::Image;
use mach_types::{End, Hart, Limits};
use process::{Code, Parts, running_harts};
use std::alloc::{AllocError, Global};

/// A process of a pair: the program that it runs, and its parts.
#[derive(Drop)]
pub struct Half {
    /// The pages of the program.
    pub code: Code,
    /// Where it begins.
    pub entry: u64,
    /// Where its program headers lie.
    pub phdr: u64,
    /// How many there are.
    pub phnum: u16,
    /// The lowest break.
    pub break_at: u64,
    /// Its pages, the harts as it sees them, its tables, and how it has ended.
    pub parts: Parts,
}

impl Half {
    /// A process that has done nothing yet, over a copy of a loaded image. All its memory is taken here.
    pub fn boot(alloc: Global, image: &Image, limits: Limits) -> Result<Half, AllocError>
        requires image { IsBootable limits.frames image.now }
        requires limits { InRange limits }
        ensures program { IfOk result (λ x. program_in x ≡ program_of image.now) }
        ensures tied { IfOk result (λ x. IsTied (setting_of image.now limits)
            (plain_start (setting_of image.now limits)) x.parts) }
    {
        let code = Code::new(alloc, &image.pages)?;
        let parts = Parts::boot(alloc, image, limits)?;
        Ok(Half {
            code,
            entry: image.entry,
            phdr: image.phdr,
            phnum: image.phnum,
            break_at: image.break_at,
            parts,
        })
    }
}

/// Whether a process goes on: nothing ended it, and it isn't so that a thread is live and none runs or is ready.
pub fn goes_on(parts: &Parts) -> bool
    ensures { (s : Setting) (p : Plain) → IsTied s p parts.now → result ≡ is_none (plain_over p) }
{
    parts.ended.is_none()
}

/// Whether a thread of a process that goes on runs on a hart, which must be one of the list.
pub fn runs_on(parts: &Parts, hart: Hart) -> bool
    requires { hart.0 < length parts.now.harts.items }
    ensures { (s : Setting) (p : Plain) → IsTied s p parts.now → hart.0 < s.limits.harts
        → result ≡ is_some (if is_none (plain_over p) then running_on hart.0 p.kernel.threads else None) }
{
    let state = &parts.harts[hart.0 as usize];
    goes_on(parts) && !state.is_idle()
}

/// The set of the harts on which threads of a process run, of 8 at most.
pub fn threads_on(parts: &Parts) -> u8
    ensures { (s : Setting) (p : Plain) → IsTied s p parts.now → s.limits.harts ≤ 8
        → result ≡ running_harts p.kernel.threads s.limits.harts }
{
    running_harts(&parts.harts)
}

/// The same of a process that goes on; none of one that doesn't.
pub fn threads_beside(parts: &Parts) -> u8
    ensures { (s : Setting) (p : Plain) → IsTied s p parts.now → s.limits.harts ≤ 8
        → result ≡ (if is_none (plain_over p) then running_harts p.kernel.threads s.limits.harts else 0) }
{
    if goes_on(parts) { threads_on(parts) } else { 0 }
}

/// Whether an event ended a process, by how its run has ended: one of which no thread can go on has not.
pub fn has_ended(ended: Option<End>) -> bool
    ensures { result ≡ has_ended ended }
{
    match ended {
        None | Some(End::Stuck) => false,
        Some(End::Exit(_) | End::Killed(_) | End::Limit | End::Unended) => true,
    }
}
