//! Faults of accesses, by the signals that Linux numbers so (signal(7)).

ghost use Rattle.std.specs.Prelude.{◌≡◌};
ghost use Rattle.rv_inst.specs.Execution as execution;
ghost use Rattle.rv_inst.specs.Sizes.{IsSized};

use mach_types::UserMem;
use mach_types::signals::{SIGBUS, SIGSEGV};
use rv_inst::Access;

/// Whether each byte of an access can be written, or read, as it needs.
fn is_allowed<M: UserMem>(mem: &M, access: Access) -> bool
    requires { IsSized access }
    ensures { result ≡ execution.is_allowed (M.byte mem.now) (M.can_write mem.now) access }
{
    if access.is_write {
        mem.writable(access.at, access.size)
    } else {
        mem.get(access.at, access.size).is_some()
    }
}

/// The fault of an access: it must be aligned and isn't, or it isn't allowed.
pub fn access_fault<M: UserMem>(mem: &M, access: Access) -> Option<u8>
    requires { IsSized access }
    ensures { result ≡ execution.access_fault (M.byte mem.now) (M.can_write mem.now) access }
{
    if access.must_align && access.at % u64::from(access.size) != 0 {
        return Some(SIGBUS);
    }
    if is_allowed(mem, access) {
        None
    } else {
        Some(SIGSEGV)
    }
}
