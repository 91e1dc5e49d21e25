//! Words packed as bytes, so that a key that is kept takes less memory.

ghost use Rattle.std.specs.Prelude.{◌≡◌, ◌++◌, OnOk};
ghost use Rattle.place_keys.specs.Packed.{packed, packed_word};

use std::alloc::AllocError;

/// One word.
fn pack_word(bytes: &mut Vec<u8>, word: u64) -> Result<(), AllocError>
    ensures { OnOk result (bytes.new.items ≡ bytes.old.items ++ packed_word word) }
{
    let mut rest = word;
    while rest >= 128 {
        bytes.push((rest % 128 + 128) as u8)?;
        rest /= 128;
    }
    bytes.push(rest as u8)?;
    Ok(())
}

/// Appends words as bytes: a word below 128 takes one byte, and one of 64 bits ten. Other words have other
/// bytes.
///
/// # Errors
///
/// [`AllocError`] where memory runs out; some of the bytes may then have been appended.
pub fn pack(bytes: &mut Vec<u8>, words: &[u64]) -> Result<(), AllocError>
    ensures { OnOk result (bytes.new.items ≡ bytes.old.items ++ packed words.now) }
{
    for word in words {
        pack_word(bytes, *word)?;
    }
    Ok(())
}
