//! Which area a thread has: the answers of rseq(2).

ghost use Rattle.std.specs.Prelude.{◌≡◌};
ghost use Rattle.mach_types.specs.Kernel.Areas.{registered_again, registered_first, registration, unregistration};

use mach_types::address_space::USER_END;
use mach_types::errors::{EBUSY, EFAULT, EINVAL, EPERM};
use mach_types::sequences::{AREA_SIZE, RSEQ_FLAG_UNREGISTER};
use mach_types::{Area, Errno};

/// The answer of a call that registers, with these arguments, for a thread that has the area `old`.
///
/// In this order (own): EINVAL where a flag is set; where the thread has an area, EINVAL for another address
/// or length, EPERM for another signature, and else EBUSY; EINVAL where the length isn't 32 or the address is
/// 0 or not a multiple of 32; EFAULT where the area ends past the end of addresses. Else the area.
pub fn register(old: Option<Area>, at: u64, len: u32, flags: u32, sig: u32) -> Result<Area, Errno>
    ensures { result ≡ registration old at len flags sig }
{
    if flags != 0 {
        return Err(EINVAL);
    }
    match old {
        Some(area) => Err(refusal_again(area, at, len, sig)),
        None => register_first(at, len, sig),
    }
}

/// Why a thread that has an area can't register this one.
fn refusal_again(old: Area, at: u64, len: u32, sig: u32) -> Errno
    ensures { result ≡ registered_again old at len sig }
{
    if at != old.at || len != AREA_SIZE {
        EINVAL
    } else if sig != old.sig {
        EPERM
    } else {
        EBUSY
    }
}

/// The answer for a thread that has no area.
fn register_first(at: u64, len: u32, sig: u32) -> Result<Area, Errno>
    ensures { result ≡ registered_first at len sig }
{
    let size = u64::from(AREA_SIZE);
    if len != AREA_SIZE || at == 0 || at % size != 0 {
        return Err(EINVAL);
    }
    if at > USER_END - size {
        return Err(EFAULT);
    }
    Ok(Area { at, sig })
}

/// The answer of a call that unregisters, with these arguments, for a thread that has the area `old`.
///
/// In this order (own): EINVAL where the flags aren't just the one that asks for it; EINVAL where the thread
/// has no area or another one; EINVAL where the length isn't 32; EPERM for another signature. The EFAULT of
/// an area that can't be written is [`set_cpu`](crate::set_cpu)'s.
pub fn unregister(old: Option<Area>, at: u64, len: u32, flags: u32, sig: u32) -> Result<(), Errno>
    ensures { result ≡ unregistration old at len flags sig }
{
    if flags != RSEQ_FLAG_UNREGISTER {
        return Err(EINVAL);
    }
    let Some(area) = old else {
        return Err(EINVAL);
    };
    if at != area.at || len != AREA_SIZE {
        return Err(EINVAL);
    }
    if sig != area.sig {
        return Err(EPERM);
    }
    Ok(())
}
