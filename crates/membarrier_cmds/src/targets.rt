//! Which harts a barrier is about.

ghost use Rattle.std.specs.Prelude.{◌≡◌, ◌<◌, ◌^◌, true, if◌then◌else◌};
ghost use Rattle.mach_types.specs.Kernel.Barriers as barriers;

use mach_types::Hart;

/// A call: whom it is about, and who makes it.
#[derive(Clone, Copy)]
pub struct Call {
    /// The flags.
    pub flags: u32,
    /// The processor that a call with a flag is about, where it is 0 or more.
    pub cpu: i32,
    /// The hart of the caller.
    pub here: Hart,
}

/// Those of the first so many harts that have to acknowledge the barrier of a call, where threads run on the
/// harts `running`: sets with a bit for each hart.
pub fn targets(call: Call, running: u8, harts: u8) -> u8
    ensures { result ≡ barriers.targets call.flags call.cpu call.here.0 running harts }
{
    let mut set = 0;
    for hart in 0..harts {
        set += set_of(hart, is_target(call, running, hart));
    }
    set
}

/// The set of a hart, or of none.
fn set_of(hart: u8, is_in: bool) -> u8
    requires { is_in ≡ true → hart < 8 }
    ensures { result ≡ (if is_in then 2 ^ hart else 0) }
{
    if is_in { 1 << hart } else { 0 }
}

/// Whether a hart runs a thread, isn't the caller's, and the barrier is about it.
fn is_target(call: Call, running: u8, hart: u8) -> bool
    ensures { result ≡ barriers.is_target call.flags call.cpu call.here.0 running hart }
{
    Hart(hart).is_in(running) && hart != call.here.0 && is_about(call, hart)
}

/// Whether a call is about a hart: about each, or under the flag with a processor of 0 or more about that
/// one.
fn is_about(call: Call, hart: u8) -> bool
    ensures { result ≡ barriers.is_about call.flags call.cpu hart }
{
    call.flags == 0 || call.cpu < 0 || call.cpu == i32::from(hart)
}
