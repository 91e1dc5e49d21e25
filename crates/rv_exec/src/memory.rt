//! Loaded values, and what an AMO writes.

ghost use Rattle.std.specs.Prelude.{◌≡◌, ◌<◌, ◌^◌};
ghost use Rattle.std.specs.Int.{w64};
ghost use Rattle.rv_inst.specs.Memory as memory;
ghost use Rattle.rv_inst.specs.Words as words;
ghost use Rattle.rv_inst.specs.Words.{sum_64};

use crate::words::word;
use rv_inst::{AmoOp, Effect};

/// The signed number that the low bytes of a word stand for. A size other than 1, 2 and 4 counts as 8.
fn signed_low(n: u64, size: u8) -> i64
    ensures { result ≡ memory.signed_low size n }
{
    match size {
        1 => ((n & 0xff) as u8).cast_signed() as i64,
        2 => ((n & 0xffff) as u16).cast_signed() as i64,
        4 => ((n & 0xffff_ffff) as u32).cast_signed() as i64,
        _ => n.cast_signed(),
    }
}

/// The low bytes of a word. A size other than 1, 2 and 4 counts as 8.
fn low_bytes(n: u64, size: u8) -> u64
    ensures { result ≡ memory.low_bytes size n }
{
    match size {
        1 => n & 0xff,
        2 => n & 0xffff,
        4 => n & 0xffff_ffff,
        _ => n,
    }
}

/// Extends a loaded value of `size` bytes, 1, 2, 4 or 8, to 64 bits: by its sign where `signed`, else by
/// zeros.
///
/// Only the low bytes of `raw` count; any other size counts as 8.
pub fn finish_load(raw: u64, size: u8, signed: bool) -> u64
    ensures { result ≡ memory.loaded raw size signed }
{
    if signed {
        word(signed_low(raw, size))
    } else {
        low_bytes(raw, size)
    }
}

/// What an AMO writes over `old`, of `size` bytes, 1, 2, 4 or 8, where its register has `value`.
///
/// Of both values only the low bytes count, and the result has no others; any other size counts as 8.
pub fn amo_value(op: AmoOp, size: u8, old: u64, value: u64) -> u64
    ensures { result ≡ memory.amo_result op size old value }
{
    let before = low_bytes(old, size);
    let given = low_bytes(value, size);
    match op {
        AmoOp::Swap => given,
        AmoOp::Add => low_bytes(old.wrapping_add(value), size),
        AmoOp::Xor => before ^ given,
        AmoOp::And => before & given,
        AmoOp::Or => before | given,
        AmoOp::Min => {
            if signed_low(value, size) < signed_low(old, size) {
                given
            } else {
                before
            }
        }
        AmoOp::Max => {
            if signed_low(old, size) < signed_low(value, size) {
                given
            } else {
                before
            }
        }
        AmoOp::MinU => before.min(given),
        AmoOp::MaxU => before.max(given),
    }
}

/// A load into `rd` of `size` bytes at a register plus an immediate.
pub fn load(rd: u8, base: u64, imm: i64, size: u8, signed: bool) -> Effect
    ensures { result ≡ Effect.Load (sum_64 base (words.word imm)) size signed rd }
{
    Effect::Load {
        at: base.wrapping_add(word(imm)),
        size,
        signed,
        rd,
    }
}

/// A store of the low `size` bytes of `value` at a register plus an immediate.
pub fn store(base: u64, imm: i64, size: u8, value: u64) -> Effect
    ensures { result ≡ Effect.Store (sum_64 base (words.word imm)) size (memory.low_bytes size value) }
{
    Effect::Store {
        at: base.wrapping_add(word(imm)),
        size,
        value: low_bytes(value, size),
    }
}

/// A load into `rd` of `size` bytes, which are reserved.
pub fn load_reserved(rd: u8, at: u64, size: u8) -> Effect
    ensures { result ≡ Effect.Lr at size rd }
{
    Effect::Lr { at, size, rd }
}

/// A store of the low `size` bytes of `value`, if they are still reserved.
pub fn store_conditional(rd: u8, at: u64, size: u8, value: u64) -> Effect
    ensures { result ≡ Effect.Sc at size (memory.low_bytes size value) rd }
{
    Effect::Sc {
        at,
        size,
        value: low_bytes(value, size),
        rd,
    }
}

/// An AMO with the low `size` bytes of `value`.
pub fn amo(op: AmoOp, rd: u8, at: u64, size: u8, value: u64) -> Effect
    ensures { result ≡ Effect.Amo op at size (memory.low_bytes size value) rd }
{
    Effect::Amo {
        op,
        at,
        size,
        value: low_bytes(value, size),
        rd,
    }
}
