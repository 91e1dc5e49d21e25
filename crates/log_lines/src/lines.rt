//! The lines of a log, appended to a text.

ghost use Rattle.std.specs.Prelude.{◌≡◌, ◌+◌, ◌<◌, ◌≤◌, ◌++◌, All, OnOk, IsOk, vec_len, vec_capacity};
ghost use Rattle.step_log.specs.Grammar.{log_text};
ghost use Rattle.step_log.specs.Text.{entry_text};

use arrayvec::ArrayVec;
use mach_types::{Entry, Kind};
use std::alloc::AllocError;
use step_log::{exec_line, print_entry};

/// The most bytes of a log's line.
const LONGEST_LINE: usize = 38;

/// Appends the lines of a log.
pub fn push_lines(text: &mut Vec<u8>, log: &[Entry]) -> Result<(), AllocError>
    requires { All (λ e. e.hart.0 < 8) log.now }
    ensures { OnOk result (text.new.items ≡ text.old.items ++ log_text log.now) }
{
    for entry in log {
        push_line(text, entry)?;
    }
    Ok(())
}

/// Appends the line of an entry. Most lines are those of an `exec` by a thread whose number is one digit.
fn push_line(text: &mut Vec<u8>, entry: &Entry) -> Result<(), AllocError>
    requires { entry.now.hart.0 < 8 }
    ensures line { OnOk result (text.new.items ≡ text.old.items ++ entry_text entry.now) }
    ensures length { vec_len text.new ≤ vec_len text.old + LONGEST_LINE }
    ensures succeeds { vec_len text.old + LONGEST_LINE ≤ vec_capacity text.old → IsOk result }
    ensures capacity { vec_capacity text.old ≤ vec_capacity text.new }
{
    if entry.kind == Kind::Exec && entry.tid.0 < 10 {
        return text.extend_from_slice(&exec_line(entry.hart, entry.tid, entry.pc));
    }
    let mut line = ArrayVec::new();
    print_entry(entry, &mut line);
    text.extend_from_slice(line.as_slice())
}
