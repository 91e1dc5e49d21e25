//! Values written as words, one after the other.

ghost use Rattle.std.specs.Prelude.{◌≡◌, [], ◌∷◌, ◌++◌, OnOk};
ghost use Rattle.place_keys.specs.Words as spec;

use std::alloc::AllocError;

/// One word.
pub fn write_word(words: &mut Vec<u64>, word: u64) -> Result<(), AllocError>
    ensures { OnOk result (words.new.items ≡ words.old.items ++ spec.word word) }
{
    words.push(word)?;
    Ok(())
}

/// A truth value.
pub fn write_bool(words: &mut Vec<u64>, value: bool) -> Result<(), AllocError>
    ensures { OnOk result (words.new.items ≡ words.old.items ++ spec.of_bool value) }
{
    if value {
        write_word(words, 1)
    } else {
        write_word(words, 0)
    }
}

/// A word that may be missing.
pub fn write_option(words: &mut Vec<u64>, value: Option<u64>) -> Result<(), AllocError>
    ensures { OnOk result (words.new.items ≡ words.old.items ++ spec.of_option spec.word value) }
{
    match value {
        None => write_word(words, 0),
        Some(word) => {
            write_word(words, 1)?;
            write_word(words, word)
        }
    }
}
