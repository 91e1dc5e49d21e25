//! The names of system calls and of error numbers.

ghost use Rattle.std.specs.Prelude.{◌≡◌, ◌≤◌};
ghost use Rattle.fact_text.specs.CallNames as names;

/// The name of a system call (uapi asm-generic/unistd.h); no characters where there is no call of this number.
#[tactic(auto, unfolding(crate::specs::CallNames::call_name))]
pub(crate) fn call_name(number: u64) -> &'static [u8]
    ensures { result.now ≡ names.call_name number }
{
    match number {
        29 => b"ioctl",
        64 => b"write",
        66 => b"writev",
        80 => b"fstat",
        93 => b"exit",
        94 => b"exit_group",
        96 => b"set_tid_address",
        98 => b"futex",
        120 => b"sched_getscheduler",
        121 => b"sched_getparam",
        122 => b"sched_setaffinity",
        123 => b"sched_getaffinity",
        124 => b"sched_yield",
        125 => b"sched_get_priority_max",
        126 => b"sched_get_priority_min",
        130 => b"tkill",
        131 => b"tgkill",
        134 => b"rt_sigaction",
        135 => b"rt_sigprocmask",
        136 => b"rt_sigpending",
        139 => b"rt_sigreturn",
        160 => b"uname",
        168 => b"getcpu",
        172 => b"getpid",
        173 => b"getppid",
        174 => b"getuid",
        175 => b"geteuid",
        176 => b"getgid",
        177 => b"getegid",
        178 => b"gettid",
        214 => b"brk",
        215 => b"munmap",
        220 => b"clone",
        222 => b"mmap",
        226 => b"mprotect",
        233 => b"madvise",
        261 => b"prlimit64",
        278 => b"getrandom",
        283 => b"membarrier",
        293 => b"rseq",
        _ => b"",
    }
}

/// How many arguments a system call has that count here; 0 where there is no call of this number.
#[tactic(auto, unfolding(crate::specs::CallNames::argument_count))]
fn argument_count(number: u64) -> u8
    ensures count { result ≡ names.argument_count number }
    ensures few { result ≤ 6 }
{
    match number {
        29 => 3,
        64 => 3,
        66 => 3,
        80 => 2,
        93 => 1,
        94 => 1,
        96 => 1,
        98 => 4,
        120 => 1,
        121 => 2,
        122 => 3,
        123 => 3,
        125 => 1,
        126 => 1,
        130 => 2,
        131 => 3,
        134 => 4,
        135 => 4,
        136 => 2,
        160 => 1,
        168 => 2,
        214 => 1,
        215 => 2,
        220 => 5,
        222 => 6,
        226 => 3,
        233 => 3,
        261 => 4,
        278 => 3,
        283 => 3,
        293 => 4,
        _ => 0,
    }
}

/// Whether an operation of futex(2) moves waiters or has a mask, and so two arguments more.
fn has_two_more(operation: u64) -> bool
    ensures { result ≡ names.has_two_more operation }
{
    let op = operation % 128;
    op == 3 || op == 4 || op == 9 || op == 10
}

/// How many arguments count in a call of this number with this second argument, at most 6.
pub(crate) fn told_count(number: u64, second: u64) -> u8
    ensures count { result ≡ names.told_count number second }
    ensures few { result ≤ 6 }
{
    if number == 98 && has_two_more(second) {
        6
    } else {
        argument_count(number)
    }
}

/// The name of an error number (errno(3)); no characters where no call here gives it.
#[tactic(auto, unfolding(crate::specs::CallNames::errno_name))]
pub(crate) fn errno_name(errno: u16) -> &'static [u8]
    ensures { result.now ≡ names.errno_name errno }
{
    match errno {
        1 => b"EPERM",
        3 => b"ESRCH",
        4 => b"EINTR",
        9 => b"EBADF",
        11 => b"EAGAIN",
        12 => b"ENOMEM",
        13 => b"EACCES",
        14 => b"EFAULT",
        16 => b"EBUSY",
        22 => b"EINVAL",
        25 => b"ENOTTY",
        28 => b"ENOSPC",
        38 => b"ENOSYS",
        _ => b"",
    }
}
