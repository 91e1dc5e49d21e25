//! What one run came to.

ghost use Rattle.std.specs.Prelude.{◌≡◌, ◌≤◌, length, All, IfOk};
ghost use Rattle.mach_types.specs.Limits.{InRange};
ghost use Rattle.elf_load.specs.Images.{IsBootable};
ghost use Rattle.block_model.specs.Setting.{setting_of};
ghost use Rattle.drawn_machine.specs.{Overtaken.stores_in, Preemptions.left_inside_in, Waits.wait_counts_in};
ghost use Rattle.explored_runs.specs.Made.{IsMadeAt, kept, made_by};

use crate::exploration::Exploration;
use crate::printed::Printed;
use crate::tallies::Tally;
use draw_policies::{OutcomeKey, Policy};
use drawn_machine::DrawnRun;
use drawn_runs::Manner;
use elf_load::Image;
use mach_types::{End, Limits};
use std::alloc::{AllocError, Global};

/// What one run came to.
#[derive(Drop)]
pub(crate) struct Made {
    /// Its seed.
    pub(crate) seed: u64,
    /// Its policy.
    pub(crate) policy: Policy,
    /// How many entries its log has.
    pub(crate) steps: u32,
    /// What it left on its console, where outcomes are told apart by that; else nothing.
    pub(crate) console: Printed,
    /// How it ended.
    pub(crate) end: End,
    /// What was tried in it.
    pub(crate) tally: Tally,
}

/// Makes the run of a place, from 0 on, in the stead of the run that the machine made last, if it made one.
pub(crate) fn make_run(
    alloc: Global,
    run: &mut DrawnRun,
    image: &Image,
    limits: Limits,
    exploration: &Exploration,
    place: u64,
) -> Result<Made, AllocError>
    requires image { IsBootable limits.frames image.now }
    requires limits { InRange limits }
    requires setting { run.old.machine.setting ≡ setting_of image.now limits }
    ensures made { IfOk result (IsMadeAt (setting_of image.now limits) exploration.now place) }
    ensures setting { run.new.machine.setting ≡ setting_of image.now limits }
{
    let manner = exploration.manner(place, limits.steps);
    run.again(alloc, image, &manner)?;
    made_by(alloc, exploration.apart, &manner, run)
}

/// What a run in this manner came to.
fn made_by(
    alloc: Global,
    apart: OutcomeKey,
    manner: &Manner,
    run: &DrawnRun,
) -> Result<Made, AllocError>
    requires harts { run.now.machine.setting.limits.harts ≤ 8 }
    requires log { length run.now.machine.log ≤ 1000000 }
    requires inside { run.now.left_inside ≡ left_inside_in run.now.machine }
    requires few { run.now.left_inside ≤ 1000000 }
    requires waits { run.now.waits ≡ wait_counts_in run.now.machine }
    requires stores { run.now.stores ≡ stores_in run.now.machine }
    requires few_waits { All (λ stores. stores ≤ 1000000) run.now.waits }
    ensures { IfOk result
        (λ made. made ≡ made_by apart manner.now run.now.machine.setting run.now.machine.log) }
{
    let machine = &run.machine;
    let log = machine.log();
    let tally = Tally::of(
        alloc,
        machine.harts(),
        log,
        run.left_inside,
        &run.waits,
        &run.stores,
    )?;
    Ok(Made {
        seed: manner.seed,
        policy: manner.policy,
        steps: log.len() as u32,
        console: Printed::copied(alloc, kept(apart, machine.console()))?,
        end: machine.end(),
        tally,
    })
}

/// The console of a run, where outcomes are told apart by it; else nothing.
fn kept(apart: OutcomeKey, console: &[u8]) -> &[u8]
    ensures { result.now ≡ kept apart console.now }
{
    match apart {
        OutcomeKey::ByText => console,
        OutcomeKey::ByEnd => &[],
    }
}
