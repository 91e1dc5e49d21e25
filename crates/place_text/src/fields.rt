//! Fields of a line: words, numbers, values and lists of harts.

ghost use Rattle.std.specs.Prelude.{◌≡◌, ◌<◌, [], ◌∷◌, ◌++◌, OnOk};
ghost use Rattle.std.specs.Fmt.{decimal};
ghost use Rattle.step_log.specs.Text.{hex_digit, hex_text, space};
ghost use Rattle.place_text.specs.Fields.{behind, harts_fields, value_or_none, value_text, yes_or_no};

use mach_types::Hart;
use std::alloc::AllocError;
use step_log::hex_digits;

/// How many harts there can be.
const MOST_HARTS: u8 = 8;

/// The character of a hexadecimal digit, in lower case.
fn hex_digit(digit: u8) -> u8
    requires { digit < 16 }
    ensures { result ≡ hex_digit digit }
{
    if digit < 10 {
        b'0' + digit
    } else {
        b'a' + (digit - 10)
    }
}

/// Appends the lowest hexadecimal digits of a number, so many, with no space before them.
fn push_digits(text: &mut Vec<u8>, places: u8, number: u64) -> Result<(), AllocError>
    ensures { OnOk result (text.new.items ≡ text.old.items ++ hex_text places number) }
{
    if places == 0 {
        return Ok(());
    }
    push_digits(text, places - 1, number / 16)?;
    text.push(hex_digit((number % 16) as u8))?;
    Ok(())
}

/// Appends a number in decimal, with no space before it.
pub fn push_decimal(text: &mut Vec<u8>, number: u64) -> Result<(), AllocError>
    ensures { OnOk result (text.new.items ≡ text.old.items ++ decimal number) }
{
    let mut digits = itoa::Buffer::new();
    text.extend_from_slice(digits.format(number).as_bytes())
}

/// Appends a space and a word.
pub fn push_word(text: &mut Vec<u8>, word: &[u8]) -> Result<(), AllocError>
    ensures { OnOk result (text.new.items ≡ text.old.items ++ space ∷ word.now) }
{
    text.push(b' ')?;
    text.extend_from_slice(word)
}

/// Appends a space and a number in decimal.
pub fn push_number(text: &mut Vec<u8>, number: u64) -> Result<(), AllocError>
    ensures { OnOk result (text.new.items ≡ text.old.items ++ space ∷ decimal number) }
{
    text.push(b' ')?;
    push_decimal(text, number)
}

/// Appends a space and the lowest hexadecimal digits of a number, so many.
pub(crate) fn push_hex(text: &mut Vec<u8>, places: u8, number: u64) -> Result<(), AllocError>
    ensures { OnOk result (text.new.items ≡ text.old.items ++ space ∷ hex_text places number) }
{
    text.push(b' ')?;
    push_digits(text, places, number)
}

/// Appends a space, and an address or a value.
pub fn push_value(text: &mut Vec<u8>, value: u64) -> Result<(), AllocError>
    ensures { OnOk result (text.new.items ≡ text.old.items ++ space ∷ value_text value) }
{
    text.push(b' ')?;
    text.extend_from_slice(&hex_digits(value))
}

/// Begins a line: appends its first word, and the number of what it is about.
pub fn begin_line(text: &mut Vec<u8>, first: &[u8], number: u64) -> Result<(), AllocError>
    ensures { OnOk result (text.new.items ≡ text.old.items ++ first.now ++ space ∷ decimal number) }
{
    text.extend_from_slice(first)?;
    push_number(text, number)
}

/// Appends a word and a number in decimal, each behind a space.
pub fn push_named_number(text: &mut Vec<u8>, name: &[u8], number: u64) -> Result<(), AllocError>
    ensures { OnOk result (text.new.items ≡ text.old.items ++ behind (name.now ∷ decimal number ∷ [])) }
{
    push_word(text, name)?;
    push_number(text, number)
}

/// Appends a word, and an address or a value, each behind a space.
pub fn push_named_value(text: &mut Vec<u8>, name: &[u8], value: u64) -> Result<(), AllocError>
    ensures { OnOk result (text.new.items ≡ text.old.items ++ behind (name.now ∷ value_text value ∷ [])) }
{
    push_word(text, name)?;
    push_value(text, value)
}

/// Appends a space, and an address or `none`.
pub fn push_value_or_none(text: &mut Vec<u8>, value: Option<u64>) -> Result<(), AllocError>
    ensures { OnOk result (text.new.items ≡ text.old.items ++ space ∷ value_or_none value) }
{
    match value {
        Some(value) => push_value(text, value),
        None => push_word(text, b"none"),
    }
}

/// Appends a space, and `yes` or `no`.
pub fn push_yes_or_no(text: &mut Vec<u8>, yes: bool) -> Result<(), AllocError>
    ensures { OnOk result (text.new.items ≡ text.old.items ++ space ∷ yes_or_no yes) }
{
    push_word(text, if yes { b"yes" } else { b"no" })
}

/// Appends the numbers of the harts in a set in rising order, or `none`, each behind a space.
#[tactic(auto, unfolding(crate::specs::Fields::harts_fields))]
pub fn push_harts(text: &mut Vec<u8>, set: u8) -> Result<(), AllocError>
    ensures { OnOk result (text.new.items ≡ text.old.items ++ behind (harts_fields set)) }
{
    if set == 0 {
        return push_word(text, b"none");
    }
    for hart in 0..MOST_HARTS {
        if Hart(hart).is_in(set) {
            push_number(text, u64::from(hart))?;
        }
    }
    Ok(())
}
