//! Numbers that differ from those at a start, as words.

ghost use Rattle.std.specs.Prelude.{◌≡◌, ◌<◌, ◌≤◌, ◌+◌, ◌^◌, ◌++◌, ℕ, IfOk, OnOk, length};
ghost use Rattle.place_keys.specs.Differences.{IsWrittenOn, sparse_words};

use crate::words::write_word;
use std::alloc::AllocError;

/// A number at a place, where it differs from the one at the start. Answers the place past the last one that
/// differs.
pub fn write_change(
    words: &mut Vec<u64>,
    past: u64,
    place: u64,
    start: u64,
    now: u64,
) -> Result<u64, AllocError>
    requires order { past ≤ place }
    requires room { place < 2 ^ 63 }
    ensures order { IfOk result (λ last. last ≤ place + 1) }
    ensures written { IfOk result (λ last. (f g : ℕ → ℕ) → f place ≡ start → g place ≡ now → IsWrittenOn f g
        (record { words = words.old.items; past = past; next = place })
        (record { words = words.new.items; past = last; next = place + 1 })) }
{
    if now == start {
        return Ok(past);
    }
    write_word(words, place - past + 1)?;
    write_word(words, now)?;
    Ok(place + 1)
}

/// A list of words many of which may be 0.
pub fn write_sparse(words: &mut Vec<u64>, list: &[u64]) -> Result<(), AllocError>
    requires { length list.now < 2 ^ 63 }
    ensures { OnOk result (words.new.items ≡ words.old.items ++ sparse_words list.now) }
{
    write_word(words, list.len() as u64)?;
    let mut last = 0;
    for index in 0..list.len() {
        last = write_change(words, last, index as u64, 0, list[index])?;
    }
    write_word(words, 0)
}
