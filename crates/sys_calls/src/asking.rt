//! The calls that only ask: each answers, perhaps writes to memory, and changes nothing else.

ghost use Rattle.std.specs.Prelude.{◌≡◌, ◌≤◌, [], IfErr, IsTrue};
ghost use Rattle.mach_types.specs.Kernel.Signals.{is_held};
ghost use Rattle.block_model.specs.Here.{Here};
ghost use Rattle.block_model.specs.Calls.{asking_call_of};
ghost use Rattle.sys_calls.specs.Answered.{IsAnswered, IsRead};
ghost use Rattle.sys_calls.specs.Tables.{HoldsTables};

use crate::kernel::Kernel;
use crate::limits::prlimit64;
use crate::memory::Written;
use crate::policies::{
    sched_get_priority_max, sched_get_priority_min, sched_getparam, sched_getscheduler,
};
use crate::signal_calls::rt_sigpending;
use crate::system::uname;
use crate::terminal::{fstat, ioctl};
use mach_types::errors::ENOSYS;
use mach_types::{Errno, Saved, Tid};
use page_map::PageMap;

/// Their numbers (Linux for RISC-V).
const IOCTL: u64 = 29;

const FSTAT: u64 = 80;

const SCHED_GETSCHEDULER: u64 = 120;

const SCHED_GETPARAM: u64 = 121;

const SCHED_GET_PRIORITY_MAX: u64 = 125;

const SCHED_GET_PRIORITY_MIN: u64 = 126;

const RT_SIGPENDING: u64 = 136;

const UNAME: u64 = 160;

const GETPPID: u64 = 173;

const GETUID: u64 = 174;

const GETEUID: u64 = 175;

const GETGID: u64 = 176;

const GETEGID: u64 = 177;

const PRLIMIT64: u64 = 261;

/// The number of the parent, as of that of an orphan (own), and that of the user and the group (own).
const PARENT: u32 = 1;

const ROOT: u32 = 0;

/// The answer of a call that only asks; ENOSYS where the number is none of those.
pub fn asked(
    number: u64,
    kernel: &Kernel,
    pages: &mut PageMap,
    written: &mut Written,
    tid: Tid,
    saved: &Saved,
) -> Result<u32, Errno>
    requires held { IsTrue (is_held tid.0 kernel.now.signals) }
    requires fresh { written.old.items ≡ [] }
    ensures errno { IfErr result (λ e. 1 ≤ e.0) }
    ensures answered { (h : Here) → HoldsTables kernel.now h.kernel → IsRead h pages.old tid.0 saved.now
        → IsAnswered h tid.0 kernel.now pages.old kernel.now pages.new written.new.items result
        (asking_call_of number h tid.0) }
{
    match number {
        IOCTL => ioctl(pages, written, saved),
        FSTAT => fstat(pages, written, saved),
        SCHED_GETSCHEDULER => sched_getscheduler(&kernel.threads, saved),
        SCHED_GETPARAM => sched_getparam(&kernel.threads, pages, written, saved),
        SCHED_GET_PRIORITY_MAX => sched_get_priority_max(saved),
        SCHED_GET_PRIORITY_MIN => sched_get_priority_min(saved),
        RT_SIGPENDING => rt_sigpending(&kernel.signals, pages, written, tid, saved),
        UNAME => uname(pages, written, saved),
        GETPPID => Ok(PARENT),
        GETUID => Ok(ROOT),
        GETEUID => Ok(ROOT),
        GETGID => Ok(ROOT),
        GETEGID => Ok(ROOT),
        PRLIMIT64 => prlimit64(&kernel.threads, pages, written, saved),
        _ => Err(ENOSYS),
    }
}
