//! Parts that are made to stand at a place by its events.

ghost use Rattle.std.specs.Prelude.{◌≡◌, IfOk, OnOk};
ghost use Rattle.mach_types.specs.Limits.{InRange};
ghost use Rattle.elf_load.specs.Images.{IsBootable};
ghost use Rattle.block_model.specs.Run.{IsBlockRun};
ghost use Rattle.block_model.specs.Setting.{setting_of};
ghost use Rattle.same_places.specs.Replayed.{StandAfter};
ghost use Rattle.checkpoints.specs.Standing.{AreStanding};
ghost use Rattle.place_search.specs.Starting.{IsStart};

use checkpoints::{Checkpoints, Program};
use elf_load::Image;
use mach_types::{Entry, Limits};
use page_map::PageMap;
use process::{Code, Parts};
use std::alloc::{AllocError, Global};

/// Parts that are made to stand at one place after another.
#[derive(Drop)]
pub(crate) struct Remade {
    /// The instructions of the program.
    pub(crate) code: Code,
    /// The parts.
    pub(crate) parts: Parts,
    /// The pages with which the program starts.
    pub(crate) start: PageMap,
}

/// The pages with which a program starts.
fn start_of(alloc: Global, image: &Image, limits: Limits) -> Result<PageMap, AllocError>
    requires image { IsBootable limits.frames image.now }
    requires limits { InRange limits }
    ensures { IfOk result (IsStart (setting_of image.now limits)) }
{
    let Parts {
        pages,
        harts: _,
        kernel: _,
        ended: _,
    } = Parts::boot(alloc, image, limits)?;
    Ok(pages)
}

impl Remade {
    /// Parts of a program.
    pub(crate) fn boot(alloc: Global, image: &Image, limits: Limits) -> Result<Remade, AllocError>
        requires image { IsBootable limits.frames image.now }
        requires limits { InRange limits }
        ensures code { IfOk result (λ made. made.code ≡ image.now.pages.items) }
        ensures started { IfOk result (λ made. IsStart (setting_of image.now limits) made.start) }
    {
        let code = Code::new(alloc, &image.pages)?;
        let parts = Parts::boot(alloc, image, limits)?;
        let start = start_of(alloc, image, limits)?;
        Ok(Remade { code, parts, start })
    }

    /// No checkpoints of the program yet.
    pub(crate) fn checkpoints(&self, alloc: Global, image: &Image, limits: Limits) -> Checkpoints
        requires image { IsBootable limits.frames image.now }
        requires limits { InRange limits }
        requires code { self.now.code ≡ image.now.pages.items }
        ensures { AreStanding (setting_of image.now limits) result }
    {
        let program = Program {
            code: &self.code,
            image,
            limits,
        };
        Checkpoints::new(alloc, &program)
    }

    /// Makes the parts stand where a log has come to, from the last checkpoint on that its entries lead past, or from the beginning on.
    ///
    /// Fails where the parts haven't as many frames and harts as the limits name, which never happens: no event changes how many
    /// there are, but no contract of an event says so of frames.
    pub(crate) fn stand_after(
        &mut self,
        image: &Image,
        limits: Limits,
        log: &[Entry],
        checkpoints: &mut Checkpoints,
    ) -> Result<(), AllocError>
        requires image { IsBootable limits.frames image.now }
        requires limits { InRange limits }
        requires code { self.old.code ≡ image.now.pages.items }
        requires run { IsBlockRun (setting_of image.now limits) log.now }
        requires standing { AreStanding (setting_of image.now limits) checkpoints.old }
        ensures stands { OnOk result (StandAfter (setting_of image.now limits) log.now self.new.parts) }
        ensures code { self.new.code ≡ self.old.code }
        ensures start { self.new.start ≡ self.old.start }
        ensures standing { AreStanding (setting_of image.now limits) checkpoints.new }
    {
        if self.parts.pages.frames() != limits.frames {
            return Err(AllocError);
        }
        if self.parts.harts.len() != usize::from(limits.harts) {
            return Err(AllocError);
        }
        let program = Program {
            code: &self.code,
            image,
            limits,
        };
        checkpoints.stand_after(&mut self.parts, &program, log)
    }
}
