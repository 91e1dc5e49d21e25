//! The frame that a handler finds on its stack, in one of two forms: 34 words of 8 bytes (own), or with SA_SIGINFO
//! 136, which are a `siginfo_t` and a `struct ucontext` (Linux, RISC-V).

ghost use Rattle.std.specs.Prelude.{◌≡◌, ℕ, ◌+◌, ◌*◌, ◌^◌, ◌≤◌, true, length, option_map, is_some, Some, None, IfSome};
ghost use Rattle.std.specs.Bool.{OnTrue, OnFalse};
ghost use Rattle.mach_types.specs.Bytes.{written};
ghost use Rattle.mach_types.specs.Kernel.SignalFrames as spec;
ghost use Rattle.signals.specs.Writing.{can_write_words, first_words, info_frame_words, word_count};

use crate::sets::maskable;
use arrayvec::ArrayVec;
use mach_types::address_space::{HANDLER_RETURN, INFO_HANDLER_RETURN, INFO_RETURN_CALL};
use mach_types::signals::{
    INFO_FRAME_SIZE, SA_SIGINFO, SI_TKILL, SIGINFO_SIZE, SIGNAL_FRAME_SIZE, SS_DISABLE,
};
use mach_types::{Action, Fault, Regs, Saved, Store, UserMem, Write};

/// How many words a frame without SA_SIGINFO has.
const WORDS: usize = 34;

/// How many words one with it has.
const INFO_WORDS: usize = 136;

/// The words of a frame: the pc, x1 to x31, the old mask, 0.
pub type FrameWords = [u64; WORDS];

/// The words of a frame with SA_SIGINFO: a `siginfo_t`, and a `struct ucontext`.
type InfoFrameWords = [u64; INFO_WORDS];

/// The words of a frame of either form.
type Words = ArrayVec<u64, INFO_WORDS>;

/// The writes of a frame to memory: one for each of its words, the lowest first.
pub type FrameWrites = ArrayVec<Write, INFO_WORDS>;

/// The return address, the stack pointer and the first three arguments (RISC-V psABI).
const RA: u8 = 1;

const SP: u8 = 2;

const A0: u8 = 10;

const A1: u8 = 11;

const A2: u8 = 12;

/// Which words of a frame with SA_SIGINFO have `ss_flags`, `uc_sigmask`, the pc, and x1 to x31.
const STACK_FLAGS: usize = 19;

const SIGMASK: usize = 21;

const PC: usize = 38;

const FIRST_REGISTER: usize = 39;

const REGISTERS_END: usize = 70;

/// Whether a handler is given a `siginfo_t` and a `struct ucontext`.
fn wants_info(action: Action) -> bool
    ensures { result ≡ spec.wants_info action }
{
    action.flags & SA_SIGINFO != 0
}

/// The bytes of the frame of an action's handler.
pub fn frame_size(action: Action) -> u64
    ensures { result ≡ spec.frame_size action }
{
    if wants_info(action) {
        INFO_FRAME_SIZE
    } else {
        SIGNAL_FRAME_SIZE
    }
}

/// How many words it has.
fn word_count(action: Action) -> u64
    ensures { result ≡ word_count action }
{
    if wants_info(action) {
        INFO_WORDS as u64
    } else {
        WORDS as u64
    }
}

/// Where a frame lies, below a stack pointer.
fn frame_at(action: Action, sp: u64) -> u64
    ensures { result ≡ spec.frame_at action sp }
{
    let low = sp.wrapping_sub(frame_size(action));
    low - low % 16
}

/// The words of a frame of a thread with this file and this mask.
pub fn frame_words(saved: &Saved, mask: u64) -> FrameWords
    ensures words { result ≡ spec.frame_words saved.now mask }
    ensures count { length result ≡ 34 }
{
    let mut words = [0; WORDS];
    words[0] = saved.pc;
    words[1..32].copy_from_slice(&saved.file.x[1..]);
    words[32] = mask;
    words
}

/// The words with which the `siginfo_t` of a signal begins; the others are 0.
fn info_words(sig: u8, fault: Option<Fault>) -> [u64; 3]
    ensures { result ≡ first_words sig fault }
{
    match fault {
        Some(fault) => [u64::from(sig), u64::from(fault.code), fault.address],
        None => [u64::from(sig), u64::from(SI_TKILL), 1],
    }
}

/// The words of a frame with SA_SIGINFO.
fn info_frame_words(sig: u8, fault: Option<Fault>, saved: &Saved, mask: u64) -> InfoFrameWords
    ensures words { result ≡ info_frame_words sig fault saved.now mask }
    ensures count { length result ≡ 136 }
{
    let mut words = [0; INFO_WORDS];
    words[..3].copy_from_slice(&info_words(sig, fault));
    words[STACK_FLAGS] = SS_DISABLE;
    words[SIGMASK] = mask;
    words[PC] = saved.pc;
    words[FIRST_REGISTER..REGISTERS_END].copy_from_slice(&saved.file.x[1..]);
    words
}

/// The words of the frame of an action's handler, to which a signal comes, of a fault or of none.
fn words_of_frame(sig: u8, action: Action, fault: Option<Fault>, saved: &Saved, mask: u64) -> Words
    ensures words { result.items ≡ spec.words_of_frame sig action fault saved.now mask }
    ensures count { length result.items ≡ word_count action }
{
    let mut words = Words::new();
    if wants_info(action) {
        let _ = words.try_extend_from_slice(&info_frame_words(sig, fault, saved, mask));
    } else {
        let _ = words.try_extend_from_slice(&frame_words(saved, mask));
    }
    words
}

/// Whether so many words can be written from an address on.
fn can_write_words<M: UserMem>(mem: &M, at: u64, count: u64) -> bool
    requires { at + 8 * count ≤ 2 ^ 64 }
    ensures { result ≡ can_write_words (M.can_write mem.now) at count }
{
    for index in 0..count {
        if !mem.writable(at + 8 * index, 8) {
            return false;
        }
    }
    true
}

/// Writes words from an address on, each of whose bytes can be written.
fn write_words<M: UserMem>(mem: &mut M, at: u64, words: &[u64])
    requires end { at + 8 * length words.now ≤ 2 ^ 64 }
    requires writable { can_write_words (M.can_write mem.old) at (length words.now) ≡ true }
    ensures bytes { (a : ℕ)
        → M.byte mem.new a ≡ option_map (written (spec.words_stored at words.now) a) (M.byte mem.old a) }
    ensures permissions { (a : ℕ) → M.can_write mem.new a ≡ M.can_write mem.old a }
    ensures alike { M.IsAlike mem.old mem.new }
{
    for index in 0..words.len() {
        let _written = mem.set(at + 8 * index as u64, 8, words[index]);
    }
}

/// Reads words from an address on into a slice, and answers whether all of their bytes can be read.
fn read_words<M: UserMem>(mem: &M, at: u64, words: &mut [u64]) -> bool
    requires end { at + 8 * length words.old ≤ 2 ^ 64 }
    ensures read { OnTrue result (spec.words_at (M.byte mem.now) at (length words.old) ≡ Some words.new) }
    ensures missing { OnFalse result (spec.words_at (M.byte mem.now) at (length words.old) ≡ None) }
{
    for index in 0..words.len() {
        let Some(word) = mem.get(at + 8 * index as u64, 8) else {
            return false;
        };
        words[index] = word;
    }
    true
}

/// How far so many words, which are some, may begin: past this address they would pass 2^64 - 1.
fn last_start(count: u64) -> u64
    requires some { 1 ≤ count }
    requires few { count ≤ 136 }
    ensures { result + 8 * count ≡ 2 ^ 64 }
{
    u64::MAX - (8 * count - 1)
}

/// Whether a frame of so many words at an address can be written.
fn can_write<M: UserMem>(mem: &M, at: u64, count: u64) -> bool
    requires some { 1 ≤ count }
    requires few { count ≤ 136 }
    ensures answer { result ≡ can_write_words (M.can_write mem.now) at count }
    ensures end { OnTrue result (at + 8 * count ≤ 2 ^ 64) }
{
    if at > last_start(count) {
        return false;
    }
    can_write_words(mem, at, count)
}

/// Writes the frame of a thread with this file and this mask, to which a signal comes, of a fault or of none. False
/// exactly where a byte of it can't be written, and then nothing changes.
pub fn write<M: UserMem>(
    mem: &mut M,
    sig: u8,
    action: Action,
    fault: Option<Fault>,
    saved: &Saved,
    mask: u64,
) -> bool
    ensures answer { result ≡ spec.can_write_frame (M.can_write mem.old) action saved.now }
    ensures bytes { (a : ℕ) → M.byte mem.new a
        ≡ spec.after_frame result (spec.frame_writes sig action fault saved.now mask) (M.byte mem.old) a }
    ensures permissions { (a : ℕ) → M.can_write mem.new a ≡ M.can_write mem.old a }
    ensures alike { M.IsAlike mem.old mem.new }
{
    let at = frame_at(action, saved.file.get(SP));
    if !can_write(mem, at, word_count(action)) {
        return false;
    }
    let words = words_of_frame(sig, action, fault, saved, mask);
    write_words(mem, at, words.as_slice());
    true
}

/// The writes of words from an address on, one after the other.
fn words_stored(at: u64, words: &[u64]) -> FrameWrites
    requires end { at + 8 * length words.now ≤ 2 ^ 64 }
    requires few { length words.now ≤ 136 }
    ensures { result.items ≡ spec.words_stored at words.now }
{
    let mut writes = FrameWrites::new();
    for index in 0..words.len() {
        writes.push(Write::Stored(Store {
            at: at + 8 * index as u64,
            size: 8,
            value: words[index],
        }));
    }
    writes
}

/// The writes that [`write`] makes of a frame, in its order; None exactly where a byte of it can't be written.
/// Nothing is written.
pub fn frame_writes<M: UserMem>(
    mem: &M,
    sig: u8,
    action: Action,
    fault: Option<Fault>,
    saved: &Saved,
    mask: u64,
) -> Option<FrameWrites>
    ensures answer { is_some result ≡ spec.can_write_frame (M.can_write mem.now) action saved.now }
    ensures writes { IfSome result
        (λ writes. writes.items ≡ spec.frame_writes sig action fault saved.now mask) }
{
    let at = frame_at(action, saved.file.get(SP));
    if !can_write(mem, at, word_count(action)) {
        return None;
    }
    let words = words_of_frame(sig, action, fault, saved, mask);
    Some(words_stored(at, words.as_slice()))
}

/// The 34 words at an address; None exactly where a byte of them can't be read.
fn words_at<M: UserMem>(mem: &M, at: u64) -> Option<FrameWords>
    ensures { result ≡ spec.words_at (M.byte mem.now) at 34 }
{
    if at > last_start(WORDS as u64) {
        return None;
    }
    let mut words = [0; WORDS];
    if !read_words(mem, at, &mut words) {
        return None;
    }
    Some(words)
}

/// The 136 words at an address; None exactly where a byte of them can't be read.
fn info_words_at<M: UserMem>(mem: &M, at: u64) -> Option<InfoFrameWords>
    ensures { result ≡ spec.words_at (M.byte mem.now) at 136 }
{
    if at > last_start(INFO_WORDS as u64) {
        return None;
    }
    let mut words = [0; INFO_WORDS];
    if !read_words(mem, at, &mut words) {
        return None;
    }
    Some(words)
}

/// The words of a frame without SA_SIGINFO that says what these of one with it say.
fn without_info(words: &InfoFrameWords) -> FrameWords
    ensures { result ≡ spec.without_info words.now }
{
    let mut short = [0; WORDS];
    short[..32].copy_from_slice(&words[PC..REGISTERS_END]);
    short[32] = words[SIGMASK];
    short
}

/// What the frame with SA_SIGINFO at an address says, as the words of one without it; None exactly where a byte of it can't
/// be read.
fn informed<M: UserMem>(mem: &M, at: u64) -> Option<FrameWords>
    ensures { result ≡ option_map spec.without_info (spec.words_at (M.byte mem.now) at 136) }
{
    let Some(words) = info_words_at(mem, at) else {
        return None;
    };
    Some(without_info(&words))
}

/// What the frame at the stack pointer says, of that form by which a thread with this file returns: the pc, x1 to
/// x31, the mask, 0. None exactly where a byte of it can't be read.
pub fn read<M: UserMem>(mem: &M, saved: &Saved) -> Option<FrameWords>
    ensures { result ≡ spec.frame_read (M.byte mem.now) saved.now }
{
    let at = saved.file.get(SP);
    if saved.pc == INFO_RETURN_CALL {
        informed(mem, at)
    } else {
        words_at(mem, at)
    }
}

/// a1 of the handler of an action with its frame at this address.
fn first_address(action: Action, at: u64) -> u64
    ensures { result ≡ spec.first_address action at }
{
    if wants_info(action) { at } else { 0 }
}

/// a2 of it.
fn second_address(action: Action, at: u64) -> u64
    ensures { result ≡ spec.second_address action at }
{
    if wants_info(action) {
        at.wrapping_add(SIGINFO_SIZE)
    } else {
        at
    }
}

/// Where the handler of an action returns to.
fn return_address(action: Action) -> u64
    ensures { result ≡ spec.return_address action }
{
    if wants_info(action) {
        INFO_HANDLER_RETURN
    } else {
        HANDLER_RETURN
    }
}

/// The file with which the handler of a signal starts: a0 is the signal, a1 and a2 with SA_SIGINFO the `siginfo_t`
/// and the `struct ucontext`, else 0 and the frame, sp the frame, and ra where the handler returns to.
pub fn handler_file(sig: u8, action: Action, saved: &Saved) -> Saved
    ensures { result ≡ spec.handler_file sig action saved.now }
{
    let at = frame_at(action, saved.file.get(SP));
    let mut file = saved.file;
    file.set(A0, u64::from(sig));
    file.set(A1, first_address(action, at));
    file.set(A2, second_address(action, at));
    file.set(SP, at);
    file.set(RA, return_address(action));
    Saved {
        file,
        pc: action.at,
    }
}

/// The file in a frame's words.
pub fn restored(words: &FrameWords) -> Saved
    ensures { result ≡ spec.restored words.now }
{
    let mut x = [0; 32];
    x[1..].copy_from_slice(&words[1..32]);
    Saved {
        file: Regs { x },
        pc: words[0],
    }
}

/// The mask in a frame's words.
pub fn restored_mask(words: &FrameWords) -> u64
    ensures { result ≡ spec.restored_mask words.now }
{
    maskable(words[32])
}
