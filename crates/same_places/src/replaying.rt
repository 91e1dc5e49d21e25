//! A place that is made again, by the events of its log.

ghost use Rattle.std.specs.Prelude.{◌≡◌, ◌≤◌, length, take};
ghost use Rattle.mach_types.specs.{Limits.InRange};
ghost use Rattle.elf_load.specs.Images.{IsBootable};
ghost use Rattle.page_map.specs.Map.{frames_in};
ghost use Rattle.block_model.specs.Run.{IsBlockRun};
ghost use Rattle.block_model.specs.Setting.{setting_of};
ghost use Rattle.same_places.specs.Replayed.{StandAfter};

use crate::making::{make_carried, rest};
use elf_load::Image;
use mach_types::{Entry, Limits};
use process::{Code, Parts};

/// Plays the entries of a run again from one place of its log on. The parts must stand after the entries before
/// that place: they then stand at the end of the run.
pub fn play_on(
    parts: &mut Parts,
    code: &Code,
    image: &Image,
    limits: Limits,
    log: &[Entry],
    from: usize,
)
    requires limits { InRange limits }
    requires code { code.now ≡ image.now.pages.items }
    requires run { IsBlockRun (setting_of image.now limits) log.now }
    requires within { from ≤ length log.now }
    requires stands { StandAfter (setting_of image.now limits) (take from log.now) parts.old }
    ensures { StandAfter (setting_of image.now limits) log.now parts.new }
{
    for index in from..log.len() {
        let entry = log[index];
        let _ = make_carried(parts, code, entry.hart, entry.choice());
    }
}

/// Takes the parts back to the start and plays a run again: they then stand at the end of the run, and no
/// hart has counts.
pub fn replay(parts: &mut Parts, code: &Code, image: &Image, limits: Limits, log: &[Entry])
    requires image { IsBootable limits.frames image.now }
    requires limits { InRange limits }
    requires frames { frames_in parts.old.pages ≡ limits.frames }
    requires harts { length parts.old.harts.items ≡ limits.harts }
    requires code { code.now ≡ image.now.pages.items }
    requires run { IsBlockRun (setting_of image.now limits) log.now }
    ensures { StandAfter (setting_of image.now limits) log.now parts.new }
{
    parts.reset(image, limits);
    rest(parts);
    play_on(parts, code, image, limits, log, 0);
}
