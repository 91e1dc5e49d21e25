//! write(2) and writev(2): bytes to the console, which is both standard output and standard error.

ghost use Rattle.std.specs.Prelude.{◌≡◌, ℕ, ◌<◌, ◌≤◌, ◌+◌, ◌*◌, ◌-◌, ◌^◌, ◌++◌, ◌&&◌, Bool, [], length, take, IfErr, IfSome, IfNone};
ghost use Rattle.mach_types.specs.declared.kernel_words.TheConstants.{CONSOLE_ROOM};
ghost use Rattle.page_map.specs.Map.{byte_in};
ghost use Rattle.block_model.specs.Here.{Here, memory};
ghost use Rattle.block_model.specs.Calls.Answers.{number_at as number_there};
ghost use Rattle.block_model.specs.Calls.Console.{all_readable, bytes_from, bytes_of, is_elsewhere, spans_at, total, write, writev};
ghost use Rattle.sys_calls.specs.Joined.{write_joined};
ghost use Rattle.sys_calls.specs.Answered.{IsAnswered, IsRead};
ghost use Rattle.sys_calls.specs.Tables.{HoldsTables};

use crate::arguments::{argument, int_argument};
use crate::console::Console;
use crate::kernel::Kernel;
use crate::memory::number_at;
use mach_types::errors::{EBADF, EFAULT, EINVAL, ENOSPC};
use mach_types::{Errno, Saved};
use page_map::PageMap;

/// The standard output and the standard error.
const STDOUT: u32 = 1;

const STDERR: u32 = 2;

/// How many records writev takes at most (IOV_MAX).
const MOST_RECORDS: u64 = 1024;

/// How many bytes a record has: an address and a length.
const RECORD_SIZE: u64 = 16;

/// How long the joined bytes may be (own).
const LENGTH_END: u64 = 0x8000_0000;

/// Bytes of memory: so many from an address on.
#[derive(Clone, Copy, Drop)]
struct Span {
    at: u64,
    len: u64,
}

/// Whether the call's descriptor isn't of the console.
fn is_elsewhere(saved: &Saved) -> bool
    ensures { (h : Here) (t : ℕ) → saved.now ≡ h.file t → result ≡ is_elsewhere h t }
{
    let descriptor = int_argument(saved, 0);
    !(descriptor == STDOUT || descriptor == STDERR)
}

/// write(fd, buf, len): appends the first bytes that fit, and answers how many. EBADF, EFAULT, ENOSPC in this order.
pub fn write(kernel: &mut Kernel, pages: &PageMap, saved: &Saved) -> Result<u32, Errno>
    ensures errno { IfErr result (λ e. 1 ≤ e.0) }
    ensures answered { (h : Here) (t : ℕ) → HoldsTables kernel.old h.kernel → IsRead h pages.now t saved.now
        → IsAnswered h t kernel.old pages.now kernel.new pages.now [] result (write h t) }
{
    if is_elsewhere(saved) {
        return Err(EBADF);
    }
    let span = Span {
        at: argument(saved, 1),
        len: argument(saved, 2),
    };
    if span.len == 0 {
        return Ok(0);
    }
    if !pages.readable(span.at, span.len) {
        return Err(EFAULT);
    }
    if kernel.console.room() == 0 {
        return Err(ENOSPC);
    }
    Ok(append_some(&mut kernel.console, pages, span))
}

/// Appends the first bytes that fit, and answers how many.
fn append_some(console: &mut Console, pages: &PageMap, span: Span) -> u32
    ensures console { console.new ≡ console.old
        ++ take (CONSOLE_ROOM - length console.old) (bytes_from (byte_in pages.now) span.at span.len) }
    ensures count { result ≡ length
        (take (CONSOLE_ROOM - length console.old) (bytes_from (byte_in pages.now) span.at span.len)) }
{
    let count = span.len.min(console.room());
    console.append(pages, span.at, count);
    count as u32
}

/// The records of a call of writev: so many from an address on.
#[derive(Clone, Copy, Drop)]
struct Records {
    at: u64,
    count: u64,
}

impl Records {
    /// Record `index`, as it stands in memory.
    fn get(self, pages: &PageMap, index: u64) -> Span
        requires end { self.at + 16 * self.count ≤ 2 ^ 64 }
        requires index { index < self.count }
        ensures at { (h : Here) → byte_in pages.now ≡ memory h
            → result.at ≡ number_there h (self.at + 16 * index) 8 }
        ensures len { (h : Here) → byte_in pages.now ≡ memory h
            → result.len ≡ number_there h (self.at + 16 * index + 8) 8 }
    {
        let at = self.at + RECORD_SIZE * index;
        Span {
            at: number_at(pages, at, 8),
            len: number_at(pages, at + 8, 8),
        }
    }

    /// How many bytes they name, below 2^31; None exactly where they are more.
    fn total(self, pages: &PageMap) -> Option<u64>
        requires end { self.at + 16 * self.count ≤ 2 ^ 64 }
        ensures some { IfSome result
            (λ length. (h : Here) → byte_in pages.now ≡ memory h
            → length ≡ total (spans_at h self.at self.count)) }
        ensures small { IfSome result (λ length. length < 2 ^ 31) }
        ensures none { IfNone result
            ((h : Here) → byte_in pages.now ≡ memory h → 2 ^ 31 ≤ total (spans_at h self.at self.count)) }
    {
        let mut length = 0;
        for index in 0..self.count {
            let span = self.get(pages, index);
            if span.len >= LENGTH_END - length {
                return None;
            }
            length += span.len;
        }
        Some(length)
    }

    /// Whether all bytes that they name can be read.
    fn are_readable(self, pages: &PageMap) -> bool
        requires end { self.at + 16 * self.count ≤ 2 ^ 64 }
        ensures { (h : Here) → byte_in pages.now ≡ memory h
            → result ≡ all_readable h (spans_at h self.at self.count) }
    {
        for index in 0..self.count {
            let span = self.get(pages, index);
            if !pages.readable(span.at, span.len) {
                return false;
            }
        }
        true
    }

    /// Appends the first of their bytes that fit, and answers how many.
    fn append_some(self, console: &mut Console, pages: &PageMap) -> u32
        requires end { self.at + 16 * self.count ≤ 2 ^ 64 }
        ensures console { (h : Here) → byte_in pages.now ≡ memory h → console.new ≡ console.old ++ take
            (CONSOLE_ROOM - length console.old) (bytes_of (memory h) (spans_at h self.at self.count)) }
        ensures count { result + length console.old ≡ length console.new }
    {
        let room = console.room();
        for index in 0..self.count {
            let _ = append_some(console, pages, self.get(pages, index));
        }
        (room - console.room()) as u32
    }
}

/// writev(fd, iov, n): appends the first bytes of those that the records name that fit, and answers how many. EBADF, EINVAL for
/// more than 1,024 records, EFAULT for the records, EINVAL for 2^31 bytes or more, and then as write: in this order.
pub fn writev(kernel: &mut Kernel, pages: &PageMap, saved: &Saved) -> Result<u32, Errno>
    ensures errno { IfErr result (λ e. 1 ≤ e.0) }
    ensures answered { (h : Here) (t : ℕ) → HoldsTables kernel.old h.kernel → IsRead h pages.now t saved.now
        → IsAnswered h t kernel.old pages.now kernel.new pages.now [] result (writev h t) }
{
    if is_elsewhere(saved) {
        return Err(EBADF);
    }
    let records = Records {
        at: argument(saved, 1),
        count: argument(saved, 2),
    };
    if records.count > MOST_RECORDS {
        return Err(EINVAL);
    }
    if !pages.readable(records.at, RECORD_SIZE * records.count) {
        return Err(EFAULT);
    }
    write_records(kernel, pages, records)
}

/// Appends the first bytes of those that the records name that fit, and answers how many.
fn write_records(kernel: &mut Kernel, pages: &PageMap, records: Records) -> Result<u32, Errno>
    requires end { records.at + 16 * records.count ≤ 2 ^ 64 }
    ensures errno { IfErr result (λ e. 1 ≤ e.0) }
    ensures answered { (h : Here) (t : ℕ) → HoldsTables kernel.old h.kernel → byte_in pages.now ≡ memory h
        → IsAnswered h t kernel.old pages.now kernel.new pages.now [] result
        (write_joined h t (spans_at h records.at records.count)) }
{
    let Some(length) = records.total(pages) else {
        return Err(EINVAL);
    };
    if length == 0 {
        return Ok(0);
    }
    if !records.are_readable(pages) {
        return Err(EFAULT);
    }
    if kernel.console.room() == 0 {
        return Err(ENOSPC);
    }
    Ok(records.append_some(&mut kernel.console, pages))
}
