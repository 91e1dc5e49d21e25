//! The line of a run's end, and the text of its console.

ghost use Rattle.std.specs.Prelude.{◌≡◌, ◌++◌, OnOk};
ghost use Rattle.place_text.specs.Ends.{console_text, end_line, number_line};

use mach_types::End;
use std::alloc::AllocError;

/// Appends a line of some words and a number.
pub fn push_number_line(text: &mut Vec<u8>, words: &[u8], number: usize) -> Result<(), AllocError>
    ensures { OnOk result (text.new.items ≡ text.old.items ++ number_line words.now number) }
{
    let mut digits = itoa::Buffer::new();
    text.extend_from_slice(words)?;
    text.push(b' ')?;
    text.extend_from_slice(digits.format(number).as_bytes())?;
    text.push(b'\n')?;
    Ok(())
}

/// Appends a console's length, its bytes and a newline.
pub fn push_console(text: &mut Vec<u8>, console: &[u8]) -> Result<(), AllocError>
    ensures { OnOk result (text.new.items ≡ text.old.items ++ console_text console.now) }
{
    push_number_line(text, b"console", console.len())?;
    text.extend_from_slice(console)?;
    text.push(b'\n')?;
    Ok(())
}

/// Appends the line of the end.
pub fn push_end(text: &mut Vec<u8>, end: End) -> Result<(), AllocError>
    ensures { OnOk result (text.new.items ≡ text.old.items ++ end_line end) }
{
    match end {
        End::Exit(status) => push_number_line(text, b"end exit", usize::from(status)),
        End::Killed(signal) => push_number_line(text, b"end killed", usize::from(signal)),
        End::Stuck => text.extend_from_slice(b"end stuck\n"),
        End::Limit => text.extend_from_slice(b"end limit\n"),
        End::Unended => text.extend_from_slice(b"end open\n"),
    }
}
