//! Barriers of a machine on which two processes run.

ghost use Rattle.std.specs.Prelude.{◌≡◌, ℕ, if◌then◌else◌};
ghost use Rattle.mach_types.specs.Kernel.Barriers as barriers;
ghost use Rattle.mach_types.specs.Kernel.PairBarriers as pairs;
ghost use Rattle.mach_types.specs.Kernel.Scheduling.{has_hart};

use crate::commands::{answer_of, barrier_at, refusal, register};
use crate::numbers::asked;
use crate::targets::{Call, targets};
use mach_types::errors::EINVAL;
use mach_types::{Answer, BarrierCommand, Hart, Registered};

/// membarrier(2) with these arguments, of a thread on the hart `here` of a machine of `harts` harts, where
/// threads of its process, whose registrations are `mine`, run on the harts `mine_running`, and threads of
/// another one on the harts `other_running`.
///
/// `Global` is about the threads of both processes. `GlobalExpedited` is about those of a process that is
/// registered for it, and the caller needs no registration. All else is as in `command`, over the threads of
/// the caller's own process. A command that registers changes `mine`, and no other call does.
pub fn command_two(
    mine: &mut Registered,
    other: &Registered,
    cmd: i32,
    flags: u32,
    cpu: i32,
    here: Hart,
    mine_running: u8,
    other_running: u8,
    harts: u8,
) -> Answer
    ensures answer { result ≡ pairs.command_two mine.old other.now cmd flags cpu here.0 mine_running other_running harts }
    ensures registered { mine.new ≡ barriers.registered_after mine.old cmd flags }
{
    let Some(command) = asked(cmd, flags) else {
        return refusal(EINVAL);
    };
    let about = concerned(command, mine, other, mine_running, other_running);
    let targets = targets(Call { flags, cpu, here }, about, harts);
    let answer = answer_beside(mine, targets, command);
    register(mine, command);
    answer
}

/// The harts that a command is about, by the registrations of the caller's process and of the other one: of
/// those on which threads of the one run, and of those on which threads of the other do. A command that begins no
/// barrier is about none.
fn concerned(
    command: BarrierCommand,
    mine: &Registered,
    other: &Registered,
    mine_running: u8,
    other_running: u8,
) -> u8
    ensures { (h : ℕ) → has_hart result h
        ≡ pairs.is_concerned command mine.now other.now (has_hart mine_running h) (has_hart other_running h) }
{
    match command {
        BarrierCommand::Global => mine_running | other_running,
        BarrierCommand::GlobalExpedited => {
            harts_if(mine.global, mine_running) | harts_if(other.global, other_running)
        }
        BarrierCommand::PrivateExpedited | BarrierCommand::PrivateExpeditedRseq => mine_running,
        BarrierCommand::Query
        | BarrierCommand::RegisterGlobalExpedited
        | BarrierCommand::RegisterPrivateExpedited
        | BarrierCommand::RegisterPrivateExpeditedRseq
        | BarrierCommand::GetRegistrations => 0,
    }
}

/// These harts, or none.
fn harts_if(is_about: bool, harts: u8) -> u8
    ensures { result ≡ (if is_about then harts else 0) }
{
    if is_about { harts } else { 0 }
}

/// What a command answers over its targets, where `GlobalExpedited` wants no registration of the caller.
fn answer_beside(mine: &Registered, targets: u8, command: BarrierCommand) -> Answer
    ensures { result ≡ pairs.answer_beside mine.now targets command }
{
    match command {
        BarrierCommand::GlobalExpedited => barrier_at(targets, false),
        BarrierCommand::Query
        | BarrierCommand::Global
        | BarrierCommand::RegisterGlobalExpedited
        | BarrierCommand::PrivateExpedited
        | BarrierCommand::RegisterPrivateExpedited
        | BarrierCommand::PrivateExpeditedRseq
        | BarrierCommand::RegisterPrivateExpeditedRseq
        | BarrierCommand::GetRegistrations => answer_of(mine, targets, command),
    }
}
