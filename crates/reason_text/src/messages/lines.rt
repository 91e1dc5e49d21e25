//! Why a line of a script is refused, for a person.

use super::shown::Shown;
use crate::conditions::Cause;
use call_reasons::LineFault;
use mach_types::Entry;
use std::alloc::AllocError;
use std::fmt::Write;
use std::str;

/// The most bytes of a script's line that are shown.
const MOST_SHOWN: usize = 80;

/// Appends why a line of a script is refused, and the line, where the script is there.
pub(crate) fn push_line_fault(
    text: &mut String,
    name: &str,
    script: &[u8],
    number: u64,
    fault: LineFault,
) -> Result<(), AllocError> {
    let name = Shown(name);
    let is_there = !script.is_empty();
    write!(text, "{name}, line {number}: ")?;
    match fault {
        LineFault::Malformed => {
            let flaw = if is_there {
                flaw_of(line_at(script, number))
            } else {
                ""
            };
            write!(text, "this isn't a line of a script{flaw}")?;
        }
        LineFault::Refused(refused) => {
            let cause = Cause(refused);
            write!(text, "this isn't allowed here: {cause}")?;
        }
        LineFault::NoneGoesOn => {
            text.push_str("this isn't allowed here: neither of the two processes goes on")?
        }
        LineFault::Differs(entry) => push_difference(text, &entry)?,
    }
    text.push_str("\n")?;
    if is_there {
        text.push_str("    ")?;
        push_shown(text, line_at(script, number))?;
        text.push_str("\n")?;
    }
    Ok(())
}

/// What is wrong with a line that can't be read, for the end of a sentence: the first of these that is the
/// case, if one is. Where the line begins an output, what of that is a script.
fn flaw_of(line: &[u8]) -> &'static str {
    let kind = str::from_utf8(field(line, 1));
    if line.starts_with(b"console ") {
        "; of an output, the log lines alone are one"
    } else if line.is_empty() {
        ": it is empty"
    } else if line.contains(&b'\r') {
        ": it has a carriage return"
    } else if !line.iter().all(|byte| matches!(byte, b' '..=b'~')) {
        ": it has a byte that isn't printable ASCII"
    } else if line.split(|byte| *byte == b' ').any(|part| part.is_empty()) {
        ": two spaces stand together in it, or one at an end"
    } else if !matches!(
        kind,
        Ok("exec" | "drain" | "take" | "done" | "preempt" | "run" | "signal")
    ) {
        ": its second word is none of exec, drain, take, done, preempt, run and signal"
    } else if field(line, 3)
        .iter()
        .any(|byte| matches!(byte, b'A'..=b'F'))
    {
        ": its pc has capital letters; the digits are 0 to 9 and a to f"
    } else {
        ""
    }
}

/// The field of a line at this place, counted from 0; an empty one where there are fewer.
fn field(line: &[u8], place: usize) -> &[u8] {
    line.split(|byte| *byte == b' ').nth(place).unwrap_or(&[])
}

/// Appends that the thread or the pc isn't as the line says.
fn push_difference(text: &mut String, entry: &Entry) -> Result<(), AllocError> {
    let thread = entry.tid.0;
    let pc = entry.pc;
    write!(
        text,
        "its thread or pc differs; here they are {thread} and {pc:016x}"
    )
}

/// The line of this number, counted from 1, without its newline.
fn line_at(script: &[u8], number: u64) -> &[u8] {
    let place = number.saturating_sub(1) as usize;
    script
        .split(|byte| *byte == b'\n')
        .nth(place)
        .unwrap_or(&[])
}

/// Appends the first bytes of a line, as many as are shown; bytes other than those of printable ASCII as `\\xNN`.
fn push_shown(text: &mut String, line: &[u8]) -> Result<(), AllocError> {
    for byte in line.iter().take(MOST_SHOWN) {
        match byte {
            b' '..=b'~' => text.push(char::from(*byte))?,
            _ => write!(text, "\\x{byte:02x}")?,
        }
    }
    if line.len() > MOST_SHOWN {
        text.push_str(" ..")?;
    }
    Ok(())
}
