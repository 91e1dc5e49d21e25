//! The words that the kernel keeps in an area: where its thread runs.

ghost use Rattle.std.specs.Prelude.{◌≡◌, ℕ, ◌+◌, ◌^◌, ◌<◌, true, [], ◌∷◌};
ghost use Rattle.mach_types.specs.Bytes.{after_writes, each_byte};
ghost use Rattle.mach_types.specs.Kernel.Areas.{Words, are_words_writable, word_stored as stored_word, words_entered, words_written as written_words};

use mach_types::sequences::{CPU_ID, MM_CID, NODE_ID};
use mach_types::{Area, Store, UserMem, Write};

/// Writes `cpu_id_start`, `cpu_id`, `node_id` and `mm_cid` of an area, in this order.
///
/// False exactly where one of their bytes, 0 to 7 and 20 to 27 of the area, can't be written; then nothing
/// changes.
pub fn set_cpu<M: UserMem>(
    mem: &mut M,
    area: &Area,
    start: u32,
    id: u32,
    node: u32,
    cid: u32,
) -> bool
    ensures answer { result ≡ are_words_writable (M.can_write mem.old) area.now }
    ensures bytes { (a : ℕ) →
        let words : Words = record { cpu_id_start = start; cpu_id = id; node_id = node; mm_cid = cid } in
        M.byte mem.new a ≡ after_writes (words_entered result area.now words) (M.byte mem.old) a }
    ensures permissions { (a : ℕ) → M.can_write mem.new a ≡ M.can_write mem.old a }
    ensures alike { M.IsAlike mem.old mem.new }
{
    if !can_set_cpu(mem, area) {
        return false;
    }
    put_word(mem, area.at, start);
    put_word(mem, area.at + CPU_ID, id);
    put_word(mem, area.at + NODE_ID, node);
    put_word(mem, area.at + MM_CID, cid);
    true
}

/// What [`set_cpu`] would answer: whether the four words can be written. They then lie below 2^64. Nothing is
/// written.
pub fn can_set_cpu<M: UserMem>(mem: &M, area: &Area) -> bool
    ensures answer { result ≡ are_words_writable (M.can_write mem.now) area.now }
    ensures fit { result ≡ true → area.now.at + MM_CID < 2 ^ 64 }
{
    match area.at.checked_add(NODE_ID) {
        Some(node_id) => mem.writable(area.at, 8) && mem.writable(node_id, 8),
        None => false,
    }
}

/// Writes a word of 4 bytes, which can be written.
fn put_word<M: UserMem>(mem: &mut M, at: u64, value: u32)
    requires { each_byte (M.can_write mem.old) at 4 ≡ true }
    ensures bytes { (a : ℕ) → M.byte mem.new a ≡ after_writes (stored_word at value ∷ []) (M.byte mem.old) a }
    ensures permissions { (a : ℕ) → M.can_write mem.new a ≡ M.can_write mem.old a }
    ensures alike { M.IsAlike mem.old mem.new }
{
    let _written = mem.set(at, 4, u64::from(value));
}

/// The writes that [`set_cpu`] makes where the four words can be written, in this order.
pub fn words_written(area: &Area, start: u32, id: u32, node: u32, cid: u32) -> [Write; 4]
    requires { area.now.at + MM_CID < 2 ^ 64 }
    ensures { let words : Words = record { cpu_id_start = start; cpu_id = id; node_id = node; mm_cid = cid } in
        result ≡ written_words area.now words }
{
    [
        word_stored(area.at, start),
        word_stored(area.at + CPU_ID, id),
        word_stored(area.at + NODE_ID, node),
        word_stored(area.at + MM_CID, cid),
    ]
}

/// The write of a word of 4 bytes.
fn word_stored(at: u64, value: u32) -> Write
    ensures { result ≡ stored_word at value }
{
    Write::Stored(Store {
        at,
        size: 4,
        value: u64::from(value),
    })
}
