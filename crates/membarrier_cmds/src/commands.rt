//! What a command answers.

ghost use Rattle.std.specs.Prelude.{◌≡◌, if◌then◌else◌};
ghost use Rattle.mach_types.specs.Kernel.Barriers as barriers;

use crate::numbers::asked;
use crate::targets::{Call, targets};
use mach_types::errors::{EINVAL, EPERM};
use mach_types::{Answer, BarrierCommand, Errno, Hart, Registered};

/// membarrier(2) with these arguments, of a thread on the hart `here`, where threads run on the harts
/// `running` of a machine of `harts` harts.
///
/// The answer is a value, or a barrier on harts, which aren't none. Its errors are, in this order: EINVAL
/// where no offered command has this number or it doesn't take these flags; EPERM where the process isn't
/// registered for it. A command that registers changes `regs`, and no other call does.
pub fn command(
    regs: &mut Registered,
    cmd: i32,
    flags: u32,
    cpu: i32,
    here: Hart,
    running: u8,
    harts: u8,
) -> Answer
    ensures answer { result ≡ barriers.command regs.old cmd flags cpu here.0 running harts }
    ensures registered { regs.new ≡ barriers.registered_after regs.old cmd flags }
{
    let Some(command) = asked(cmd, flags) else {
        return refusal(EINVAL);
    };
    let call = Call { flags, cpu, here };
    let answer = answer_of(regs, targets(call, running, harts), command);
    register(regs, command);
    answer
}

/// An error number, as a value.
pub fn refusal(error: Errno) -> Answer
    ensures { result ≡ barriers.refusal error }
{
    Answer::Value(-i64::from(error.0))
}

/// What a command answers to a process with these registrations, over the targets of its barrier.
pub fn answer_of(regs: &Registered, targets: u8, command: BarrierCommand) -> Answer
    ensures { result ≡ barriers.answer_of regs.now targets command }
{
    match command {
        BarrierCommand::Query => Answer::Value(QUERY_VALUE),
        BarrierCommand::Global => barrier_at(targets, false),
        BarrierCommand::GlobalExpedited if regs.global => barrier_at(targets, false),
        BarrierCommand::PrivateExpedited if regs.private => barrier_at(targets, false),
        BarrierCommand::PrivateExpeditedRseq if regs.rseq => barrier_at(targets, true),
        BarrierCommand::PrivateExpedited | BarrierCommand::PrivateExpeditedRseq => refusal(EPERM),
        BarrierCommand::GetRegistrations => Answer::Value(i64::from(registrations(regs))),
        BarrierCommand::GlobalExpedited
        | BarrierCommand::RegisterGlobalExpedited
        | BarrierCommand::RegisterPrivateExpedited
        | BarrierCommand::RegisterPrivateExpeditedRseq => Answer::Value(0),
    }
}

/// The sum of the numbers of all commands that are offered.
const QUERY_VALUE: i64 = 1 + 2 + 4 + 8 + 16 + 128 + 256 + 512;

/// A barrier on these harts: over at once where there are none.
pub fn barrier_at(targets: u8, restart: bool) -> Answer
    ensures { result ≡ barriers.barrier_at targets restart }
{
    if targets == 0 {
        Answer::Value(0)
    } else {
        Answer::Begin { targets, restart }
    }
}

/// The sum of the numbers of the commands that registered the process.
fn registrations(regs: &Registered) -> u32
    ensures { result ≡ barriers.registrations regs.now }
{
    counted_if(regs.global, 4) + counted_if(regs.private, 16) + counted_if(regs.rseq, 256)
}

/// A number where it counts, else 0.
fn counted_if(counts: bool, number: u32) -> u32
    ensures { result ≡ (if counts then number else 0) }
{
    if counts { number } else { 0 }
}

/// Registers the process, where the command asks for it.
pub fn register(regs: &mut Registered, command: BarrierCommand)
    ensures { regs.new ≡ barriers.registered_by regs.old command }
{
    match command {
        BarrierCommand::RegisterGlobalExpedited => regs.global = true,
        BarrierCommand::RegisterPrivateExpedited => regs.private = true,
        BarrierCommand::RegisterPrivateExpeditedRseq => regs.rseq = true,
        BarrierCommand::Query
        | BarrierCommand::Global
        | BarrierCommand::GlobalExpedited
        | BarrierCommand::PrivateExpedited
        | BarrierCommand::PrivateExpeditedRseq
        | BarrierCommand::GetRegistrations => {}
    }
}
