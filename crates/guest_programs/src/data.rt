//! The first bytes of a guest's data.

ghost use Rattle.std.specs.Prelude.{◌≡◌, ◌+◌, ◌-◌, ◌^◌, ◌<◌, IfOk};
ghost use Rattle.guest_programs.specs.Programs.{data_bytes, data_words, label_address};

use crate::labels::{BASE, SECOND_BASE};
use rv_asm::Asm;
use std::alloc::{AllocError, Global};

/// The address of a label, or 0.
fn label_address(asm: &Asm, label: u32) -> u64
    ensures { result ≡ label_address asm.now label }
{
    match asm.place(label) {
        Some(at) => at,
        None => 0,
    }
}

/// How far a label lies behind another, or 0.
fn length_between(asm: &Asm, from: u32, to: u32) -> u64
    ensures { result ≡ label_address asm.now to - label_address asm.now from }
{
    label_address(asm, to).saturating_sub(label_address(asm, from))
}

/// The words of the data: the size, the grace counter, and the descriptors of two blocks.
fn words_of(asm: &Asm, n: u64) -> [u64; 12]
    ensures { result ≡ data_words asm.now n }
{
    [
        n,
        1,
        0,
        0,
        0,
        label_address(asm, BASE + 1),
        length_between(asm, BASE + 1, BASE + 2),
        label_address(asm, BASE + 3),
        0,
        label_address(asm, SECOND_BASE + 1),
        length_between(asm, SECOND_BASE + 1, SECOND_BASE + 2),
        label_address(asm, SECOND_BASE + 3),
    ]
}

/// The first bytes of the data.
pub(crate) fn data_of(alloc: Global, asm: &Asm, n: u64) -> Result<Vec<u8>, AllocError>
    ensures { IfOk result (λ bytes. bytes.items ≡ data_bytes asm.now n) }
{
    let words = words_of(asm, n);
    let mut data = Vec::new(alloc);
    for word in &words {
        data.extend_from_slice(&word.to_le_bytes())?;
    }
    Ok(data)
}
