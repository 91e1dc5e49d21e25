//! getrandom(2): bytes of a generator that begins at the same state in each run.

ghost use Rattle.std.specs.Prelude.{◌≡◌, ◌≤◌, ◌<◌, ◌+◌, ◌*◌, ◌/◌, ◌%◌, ◌^◌, ◌++◌, ℕ, [], length, nat_lt, IfErr, IsTrue};
ghost use Rattle.mach_types.specs.Bytes.{each_byte};
ghost use Rattle.page_map.specs.Map.{can_write_in};
ghost use Rattle.block_model.specs.Here.{Here};
ghost use Rattle.block_model.specs.Calls.Random as call;
ghost use Rattle.sys_calls.specs.Answered.{IsAnswered, IsEntered, IsRead};
ghost use Rattle.sys_calls.specs.Tables.{HoldsTables};

use crate::arguments::{argument, int_argument};
use crate::kernel::Kernel;
use crate::memory::{Written, write_byte, write_double};
use crate::ranges::can_write_range;
use mach_types::errors::{EFAULT, EINVAL};
use mach_types::{Errno, Saved};
use page_map::PageMap;
use rand_core::SeedableRng;
use rand_core::utils::NextWord;
use rand_xoshiro::SplitMix64;

/// How many bytes one call gives at most (own).
const MOST_BYTES: u64 = 256;

/// GRND_NONBLOCK and GRND_INSECURE, beside which GRND_RANDOM may not stand (uapi linux/random.h).
const MOST_FLAGS: u32 = 5;

/// How far one word moves the state of the generator.
const STEP: u64 = 0x9e37_79b9_7f4a_7c15;

/// How many bytes a call for so many gives.
fn bytes_given(len: u64) -> u64
    ensures given { result ≡ call.bytes_given len }
    ensures few { result ≤ 256 }
{
    if len > MOST_BYTES { MOST_BYTES } else { len }
}

/// Whether no call has these flags.
fn refuses_flags(flags: u32) -> bool
    ensures { result ≡ nat_lt call.most_flags flags }
{
    flags > MOST_FLAGS
}

/// The next word of the generator with this state.
fn next_word(state: u64) -> u64
    ensures { result ≡ call.next_word state }
{
    let mut generator = SplitMix64::seed_from_u64(state);
    generator.next_word()
}

/// The state of the generator after its next word.
fn next_state(state: u64) -> u64
    ensures { result ≡ call.next_state state }
{
    state.wrapping_add(STEP)
}

/// Writes so many words of the generator from an address on. Answers its state after them.
fn write_words(pages: &mut PageMap, written: &mut Written, at: u64, count: u64, state: u64) -> u64
    requires few { count ≤ 32 }
    requires end { at + 8 * count ≤ 2 ^ 64 }
    requires writable { IsTrue (each_byte (can_write_in pages.old) at (8 * count)) }
    requires fresh { written.old.items ≡ [] }
    ensures state { result ≡ call.state_after count state }
    ensures entered { IsEntered pages.old pages.new (call.words_drawn count at state) }
    ensures same { (a : ℕ) → can_write_in pages.new a ≡ can_write_in pages.old a }
    ensures told { written.new.items ≡ call.words_drawn count at state }
{
    let mut current = state;
    for k in 0..count {
        let word = next_word(current);
        write_double(pages, written, at + 8 * k, word);
        let following = next_state(current);
        current = following;
    }
    current
}

/// Writes so many bytes of a word from an address on, the lowest first.
fn write_bytes(pages: &mut PageMap, written: &mut Written, at: u64, count: u64, word: u64)
    requires few { count ≤ 7 }
    requires end { at + count ≤ 2 ^ 64 }
    requires writable { IsTrue (each_byte (can_write_in pages.old) at count) }
    requires room { length written.old.items ≤ 32 }
    ensures entered { IsEntered pages.old pages.new (call.bytes_drawn count at word) }
    ensures told { written.new.items ≡ written.old.items ++ call.bytes_drawn count at word }
{
    let mut rest = word;
    for k in 0..count {
        write_byte(pages, written, at + k, (rest % 256) as u8);
        rest /= 256;
    }
}

/// Writes so many bytes of the generator from an address on. Answers its state after them.
fn write_random(pages: &mut PageMap, written: &mut Written, at: u64, len: u64, state: u64) -> u64
    requires few { len ≤ 256 }
    requires end { at + len ≤ 2 ^ 64 }
    requires writable { IsTrue (each_byte (can_write_in pages.old) at len) }
    requires fresh { written.old.items ≡ [] }
    ensures state { result ≡ call.state_after (call.words_for len) state }
    ensures entered { IsEntered pages.old pages.new (call.random_written len at state) }
    ensures told { written.new.items ≡ call.random_written len at state }
{
    let words = len / 8;
    let left = len % 8;
    let past = write_words(pages, written, at, words, state);
    if left == 0 {
        return past;
    }
    let word = next_word(past);
    write_bytes(pages, written, at + 8 * words, left, word);
    next_state(past)
}

/// Whether each of at most 256 bytes can be written.
fn can_write(pages: &PageMap, at: u64, len: u64) -> bool
    requires { len ≤ 256 }
    ensures can { result ≡ each_byte (can_write_in pages.now) at len }
    ensures end { IsTrue result → at + len ≤ 2 ^ 64 }
{
    if len == 0 {
        return true;
    }
    can_write_range(pages, at, len - 1)
}

/// getrandom(p, len, flags): writes at most 256 bytes, and answers how many. EINVAL for other flags than GRND_NONBLOCK, GRND_RANDOM and
/// GRND_INSECURE, and for the last two together; EFAULT where one of the bytes can't be written.
pub fn getrandom(
    kernel: &mut Kernel,
    pages: &mut PageMap,
    written: &mut Written,
    saved: &Saved,
) -> Result<u32, Errno>
    requires fresh { written.old.items ≡ [] }
    ensures errno { IfErr result (λ e. 1 ≤ e.0) }
    ensures answered { (h : Here) (t : ℕ) → HoldsTables kernel.old h.kernel → IsRead h pages.old t saved.now
        → IsAnswered h t kernel.old pages.old kernel.new pages.new written.new.items result (call.getrandom h t) }
{
    let at = argument(saved, 0);
    let len = bytes_given(argument(saved, 1));
    if refuses_flags(int_argument(saved, 2)) {
        return Err(EINVAL);
    }
    if !can_write(pages, at, len) {
        return Err(EFAULT);
    }
    let state = write_random(pages, written, at, len, kernel.random);
    kernel.random = state;
    Ok(len as u32)
}
