//! Commands by their numbers (uapi linux/membarrier.h, `enum membarrier_cmd`).

ghost use Rattle.std.specs.Prelude.{◌≡◌};
ghost use Rattle.mach_types.specs.Kernel.Barriers as barriers;

use mach_types::BarrierCommand;
use mach_types::barriers::MEMBARRIER_CMD_FLAG_CPU;

#[tactic(auto, unfolding(mach_types::specs::Kernel::Barriers::asked))]
/// The offered command with a number that takes these flags: they must be 0, but 128 takes the flag of one
/// processor.
pub fn asked(cmd: i32, flags: u32) -> Option<BarrierCommand>
    ensures { result ≡ barriers.asked cmd flags }
{
    let command = match cmd {
        0 => BarrierCommand::Query,
        1 => BarrierCommand::Global,
        2 => BarrierCommand::GlobalExpedited,
        4 => BarrierCommand::RegisterGlobalExpedited,
        8 => BarrierCommand::PrivateExpedited,
        16 => BarrierCommand::RegisterPrivateExpedited,
        128 => BarrierCommand::PrivateExpeditedRseq,
        256 => BarrierCommand::RegisterPrivateExpeditedRseq,
        512 => BarrierCommand::GetRegistrations,
        _ => return None,
    };
    if takes_flags(command, flags) {
        Some(command)
    } else {
        None
    }
}

/// Whether a command may have these flags.
fn takes_flags(command: BarrierCommand, flags: u32) -> bool
    ensures { result ≡ barriers.takes_flags flags command }
{
    let is_for_one = command == BarrierCommand::PrivateExpeditedRseq;
    flags == 0 || is_for_one && flags == MEMBARRIER_CMD_FLAG_CPU
}
