//! uname(2): which system it is.

ghost use Rattle.std.specs.Prelude.{◌≡◌, ◌≤◌, ℕ, [], IfErr, IsTrue};
ghost use Rattle.page_map.specs.Map.{can_write_in};
ghost use Rattle.block_model.specs.Here.{Here};
ghost use Rattle.block_model.specs.Calls.System as call;
ghost use Rattle.sys_calls.specs.Answered.{IsAnswered, IsEntered, IsRead};
ghost use Rattle.sys_calls.specs.Asked.{pass_bytes};
ghost use Rattle.sys_calls.specs.Tables.{HoldsTables};
ghost use Rattle.sys_calls.specs.declared.kernel.Kernel.{Kernel as Tables};

use crate::arguments::argument;
use crate::memory::{Written, write_double};
use crate::ranges::{can_write_range, write_zeros};
use mach_types::errors::EFAULT;
use mach_types::{Errno, Saved};
use page_map::PageMap;

/// How many bytes the six names have, and where those of the release and the machine begin (uapi linux/utsname.h).
const NAMES_SIZE: u64 = 390;

const RELEASE_AT: u64 = 130;

const MACHINE_AT: u64 = 260;

/// "Linux", "6.3.0" and "riscv64", each with the zeros behind it; the lowest byte is the first character.
const SYSTEM: u64 = 0x78_756e_694c;

const RELEASE: u64 = 0x30_2e33_2e36;

const MACHINE: u64 = 0x34_3676_6373_6972;

/// Whether the bytes of the names can be written.
fn can_write_names(pages: &PageMap, at: u64) -> bool
    ensures { result ≡ pass_bytes call.names_size (can_write_in pages.now) at }
{
    can_write_range(pages, at, NAMES_SIZE - 1)
}

/// Writes the names.
fn write_names(pages: &mut PageMap, written: &mut Written, at: u64)
    requires writable { IsTrue (pass_bytes call.names_size (can_write_in pages.old) at) }
    requires fresh { written.old.items ≡ [] }
    ensures entered { IsEntered pages.old pages.new (call.names_written at) }
    ensures told { written.new.items ≡ call.names_written at }
{
    write_zeros(pages, written, at, NAMES_SIZE);
    write_double(pages, written, at, SYSTEM);
    write_double(pages, written, at + RELEASE_AT, RELEASE);
    write_double(pages, written, at + MACHINE_AT, MACHINE);
}

/// uname(p): writes the names of the system, the release and the machine; those of the node, the version and the domain are empty. EFAULT.
pub fn uname(pages: &mut PageMap, written: &mut Written, saved: &Saved) -> Result<u32, Errno>
    requires { written.old.items ≡ [] }
    ensures errno { IfErr result (λ e. 1 ≤ e.0) }
    ensures answered { (h : Here) (k : Tables) (t : ℕ) → HoldsTables k h.kernel → IsRead h pages.old t saved.now
        → IsAnswered h t k pages.old k pages.new written.new.items result (call.uname h t) }
{
    let at = argument(saved, 0);
    if !can_write_names(pages, at) {
        return Err(EFAULT);
    }
    write_names(pages, written, at);
    Ok(0)
}
