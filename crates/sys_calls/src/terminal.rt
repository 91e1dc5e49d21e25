//! ioctl(2) and fstat(2) on the console, which is a terminal of 25 rows and 80 columns.

ghost use Rattle.std.specs.Prelude.{◌≡◌, ◌≤◌, ℕ, [], IfErr, IsTrue};
ghost use Rattle.page_map.specs.Map.{can_write_in};
ghost use Rattle.block_model.specs.Here.{Here};
ghost use Rattle.block_model.specs.Calls.Terminal as call;
ghost use Rattle.sys_calls.specs.Answered.{IsAnswered, IsEntered, IsRead};
ghost use Rattle.sys_calls.specs.Asked.{pass_bytes};
ghost use Rattle.sys_calls.specs.Tables.{HoldsTables};
ghost use Rattle.sys_calls.specs.declared.kernel.Kernel.{Kernel as Tables};

use crate::arguments::{argument, int_argument};
use crate::memory::{Written, write_double, write_word};
use crate::ranges::{can_write_range, write_zeros};
use mach_types::errors::{EBADF, EFAULT};
use mach_types::{Errno, Saved, UserMem};
use page_map::PageMap;

/// Not a terminal, or no request that it knows (errno(3)).
const ENOTTY: Errno = Errno(25);

/// The last descriptor of the console: the standard error.
const STDERR: u32 = 2;

/// What is the size of the window? (uapi asm-generic/ioctls.h)
const TIOCGWINSZ: u32 = 0x5413;

/// The answer: 25 rows, 80 columns, and twice 0, as halfwords (ioctl_tty(2), `struct winsize`).
const WINDOW_SIZE: u64 = 25 + (80 << 16);

/// How many bytes a `struct stat` has, and where these of its fields stand: the mode with the number of links, the number of the device,
/// and the size of a block (uapi asm-generic/stat.h).
const STAT_SIZE: u64 = 128;

const MODE: u64 = 16;

const DEVICE: u64 = 32;

const BLOCK_SIZE: u64 = 56;

/// A character device that its owner reads and writes and its group writes, with one link (inode(7)).
const TERMINAL: u64 = 0o20620 + (1 << 32);

/// Whether a descriptor is of the console.
fn is_open(descriptor: u32) -> bool
    ensures { result ≡ call.is_open descriptor }
{
    descriptor <= STDERR
}

/// ioctl(fd, request, p): writes the size of the window, for the request TIOCGWINSZ. EBADF for a descriptor that isn't the console's,
/// ENOTTY for any other request, EFAULT, in this order.
pub fn ioctl(pages: &mut PageMap, written: &mut Written, saved: &Saved) -> Result<u32, Errno>
    requires { written.old.items ≡ [] }
    ensures errno { IfErr result (λ e. 1 ≤ e.0) }
    ensures answered { (h : Here) (k : Tables) (t : ℕ) → HoldsTables k h.kernel → IsRead h pages.old t saved.now
        → IsAnswered h t k pages.old k pages.new written.new.items result (call.ioctl h t) }
{
    let at = argument(saved, 2);
    if !is_open(int_argument(saved, 0)) {
        return Err(EBADF);
    }
    if int_argument(saved, 1) != TIOCGWINSZ {
        return Err(ENOTTY);
    }
    if !pages.writable(at, 8) {
        return Err(EFAULT);
    }
    write_double(pages, written, at, WINDOW_SIZE);
    Ok(0)
}

/// Whether the bytes of a `struct stat` can be written.
fn can_write_stat(pages: &PageMap, at: u64) -> bool
    ensures { result ≡ pass_bytes call.stat_size (can_write_in pages.now) at }
{
    can_write_range(pages, at, STAT_SIZE - 1)
}

/// Writes what is told of the console.
fn write_stat(pages: &mut PageMap, written: &mut Written, at: u64)
    requires writable { IsTrue (pass_bytes call.stat_size (can_write_in pages.old) at) }
    requires fresh { written.old.items ≡ [] }
    ensures entered { IsEntered pages.old pages.new (call.stat_written at) }
    ensures told { written.new.items ≡ call.stat_written at }
{
    write_zeros(pages, written, at, STAT_SIZE);
    write_double(pages, written, at + MODE, TERMINAL);
    write_double(pages, written, at + DEVICE, 0x501);
    write_word(pages, written, at + BLOCK_SIZE, 1024);
}

/// fstat(fd, p): writes what is told of the console. EBADF for a descriptor that isn't the console's, EFAULT, in this order.
pub fn fstat(pages: &mut PageMap, written: &mut Written, saved: &Saved) -> Result<u32, Errno>
    requires { written.old.items ≡ [] }
    ensures errno { IfErr result (λ e. 1 ≤ e.0) }
    ensures answered { (h : Here) (k : Tables) (t : ℕ) → HoldsTables k h.kernel → IsRead h pages.old t saved.now
        → IsAnswered h t k pages.old k pages.new written.new.items result (call.fstat h t) }
{
    let at = argument(saved, 1);
    if !is_open(int_argument(saved, 0)) {
        return Err(EBADF);
    }
    if !can_write_stat(pages, at) {
        return Err(EFAULT);
    }
    write_stat(pages, written, at);
    Ok(0)
}
