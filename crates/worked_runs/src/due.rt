//! How the outcome of a call differs from what is due, and telling that.

use crate::lines::{first_difference, line_at};
use crate::runs::Run;
use std::{io, str};

/// Prints which run and which call differ; what differs is to follow in the line.
fn tell_where<R: Print>(rt: &R, run: &Run, call: &str) -> io::Result<()> {
    let name = &run.row.name;
    let line = run.line;
    let failing = run.failing;
    print!(rt; "{name}: {line} ({failing}): {call}: ")
}

/// Prints how a call differs.
pub(crate) fn tell<R: Print>(rt: &R, run: &Run, call: &str, what: &str) -> io::Result<bool> {
    tell_where(rt, run, call)?;
    println!(rt; "{what}")?;
    Ok(true)
}

/// Whether an outcome differs from what is due of a run; prints how.
pub(crate) fn outcome_differs<R: Print>(
    rt: &R,
    run: &Run,
    call: &str,
    status: u8,
    text: &[u8],
) -> io::Result<bool> {
    let due = run.status;
    if u64::from(status) != due {
        tell_where(rt, run, call)?;
        println!(rt; "its status is {status}, and {due} is due")?;
        return Ok(true);
    }
    text_differs(rt, run, call, text)
}

/// Whether a text differs from the one that is due: `stdout`, or `any-hart` where the row has that; or one that
/// begins and ends as the row says.
fn text_differs<R: Print>(rt: &R, run: &Run, call: &str, text: &[u8]) -> io::Result<bool> {
    if run.row.file("any-hart") == Some(text) {
        return Ok(false);
    }
    if let Some(due) = run.row.file("stdout") {
        return lines_differ(rt, run, call, text, due);
    }
    match (run.row.file("begins"), run.row.file("ends")) {
        (Some(begins), _) if !text.starts_with(begins) => {
            tell(rt, run, call, "its text begins otherwise")
        }
        (_, Some(ends)) if !text.ends_with(ends) => tell(rt, run, call, "its text ends otherwise"),
        (Some(_), Some(_)) => Ok(false),
        _ => tell(
            rt,
            run,
            call,
            "the row has neither stdout nor begins and ends",
        ),
    }
}

/// Whether what standard error says differs from what is due: the whole of `stderr`, or the line of `told` at the
/// place of the command line, and what stands behind it. It says something exactly where the status isn't 0.
pub(crate) fn said_differs<R: Print>(rt: &R, run: &Run, said: &[u8]) -> io::Result<bool> {
    let call = "standard error";
    let is_done = run.status == 0;
    if is_done != said.is_empty() {
        return tell(rt, run, call, "it and the status don't fit");
    }
    if let Some(due) = run.row.file("stderr") {
        return lines_differ(rt, run, call, said, due);
    }
    let Some(told) = run.row.file("told") else {
        return Ok(false);
    };
    match line_at(told, run.place) {
        Some(due) if said.starts_with(due) => Ok(false),
        Some(due) => lines_differ(rt, run, call, said, due),
        None => tell(rt, run, call, "the file told has fewer lines than words"),
    }
}

/// Whether a text differs from another; prints the first line that does.
pub(crate) fn lines_differ<R: Print>(
    rt: &R,
    run: &Run,
    call: &str,
    found: &[u8],
    due: &[u8],
) -> io::Result<bool> {
    if found == due {
        return Ok(false);
    }
    let place = first_difference(found, due);
    let number = place.saturating_add(1);
    let found = shown_line(found, place);
    let due = shown_line(due, place);
    tell_where(rt, run, call)?;
    println!(rt; "line {number} is {found:?}, and {due:?} is due")?;
    Ok(true)
}

/// The line at a place for a person; nothing past the last line.
fn shown_line(text: &[u8], place: usize) -> &str {
    let line = line_at(text, place).unwrap_or(&[]);
    str::from_utf8(line).unwrap_or("bytes that aren't UTF-8")
}
