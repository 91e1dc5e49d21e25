//! `worked_runs`: makes the runs that its folder data/ tells of, and says which of them come to something
//! else than stands there. Behind them it prints what is said of reasons that no run gives.
//!
//! A row is a folder GROUP/NAME: command lines, the files that they name, and the status and the text that
//! are due. The file data/rows lists the rows.
#![tactic(auto)]

mod calls;
mod due;
mod lines;
mod meeting;
mod reasons;
mod rows;
mod runs;

use calls::differs;
use reasons::say_reasons;
use rows::{Row, read_file};
use runs::{Run, asked_of, words_of};
use std::alloc::Global;
use std::io::{self, ErrorKind};
use std::process::ExitCode;
use std::rt::Files;
use std::str;
use std::sync::Wait;
use std::thread::Threads;

/// How many runs were made, and how many of them differ from what is due, or have a row that isn't whole.
#[derive(Drop)]
struct Tally {
    runs: u64,
    differ: u64,
}

/// Ends with status 0 only where no run differs.
fn main(rt: HostRuntime) -> io::Result<ExitCode> {
    let mut tally = Tally { runs: 0, differ: 0 };
    check_rows(rt.alloc(), &rt, &mut tally)?;
    println!(rt; "{} runs, {} differ", tally.runs, tally.differ)?;
    say_reasons(rt.alloc(), &rt)?;
    if tally.differ == 0 {
        Ok(ExitCode::SUCCESS)
    } else {
        Ok(ExitCode::FAILURE)
    }
}

/// Makes the runs of all rows that are listed.
fn check_rows<R: Files + AllocGlobal + Print + Threads + Wait + Sync>(
    alloc: Global,
    rt: &R,
    tally: &mut Tally,
) -> io::Result<()> {
    let Some(list) = read_file(rt, ".", "rows")? else {
        return Err(ErrorKind::NotFound.into());
    };
    let Ok(names) = str::from_utf8(&list) else {
        return Err(ErrorKind::InvalidData.into());
    };
    for name in names.lines() {
        let row = Row::read(rt, name)?;
        check_row(alloc, rt, &row, tally)?;
    }
    Ok(())
}

/// Makes the runs of one row. One without a file of command lines differs.
fn check_row<R: Print + Threads + Wait + Sync>(
    alloc: Global,
    rt: &R,
    row: &Row,
    tally: &mut Tally,
) -> io::Result<()> {
    let Some(lines) = row.text("words") else {
        return tell_bad_row(rt, row, "words", tally);
    };
    for (place, line) in lines.lines().enumerate() {
        check_line(alloc, rt, row, place, line, tally)?;
    }
    Ok(())
}

/// Makes the runs of one command line: one for each choice of calls of its devices that fail.
fn check_line<'a, R: Print + Threads + Wait + Sync>(
    alloc: Global,
    rt: &R,
    row: &'a Row,
    place: usize,
    line: &'a str,
    tally: &mut Tally,
) -> io::Result<()> {
    let Some(status) = row.status() else {
        return tell_bad_row(rt, row, "status", tally);
    };
    let Some(choices) = row.choices() else {
        return tell_bad_row(rt, row, "fails", tally);
    };
    let words = words_of(alloc, line)?;
    let asked = asked_of(alloc, &words)?;
    for failing in choices.lines() {
        let run = Run {
            row,
            line,
            place,
            words: &words,
            asked,
            failing,
            status,
        };
        tally.runs = tally.runs.saturating_add(1);
        match differs(alloc, rt, &run) {
            Ok(true) => tally.differ = tally.differ.saturating_add(1),
            Ok(false) => {}
            Err(error) if error.kind() == ErrorKind::InvalidData => {
                tell_bad_row(rt, row, "fails", tally)?;
            }
            Err(error) => return Err(error),
        }
    }
    Ok(())
}

/// Prints that a file of a row isn't as it should be, and counts this.
fn tell_bad_row<R: Print>(rt: &R, row: &Row, file: &str, tally: &mut Tally) -> io::Result<()> {
    tally.differ = tally.differ.saturating_add(1);
    println!(rt;
        "{}: its file {file} isn't there or isn't as it should be",
        row.name
    )
}
