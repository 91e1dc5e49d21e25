//! A run, and the devices in memory that it is made over.

use crate::lines::number_in;
use crate::rows::{Row, shelf_files};
use command_words::{Command, Shown, Source, WordsError, read_words};
use mach_types::Limits;
use outside::{MemShelf, MemSink, SureShelf, SureSink};
use std::alloc::{AllocError, Global};
use std::io::{self, ErrorKind};

/// More bytes than the text of any row has.
pub(crate) const ROOM: usize = 2_097_152;

/// What words ask for, as far as it matters to what is due; nothing of this where they are no command.
#[derive(Clone, Copy, Drop)]
pub(crate) struct Asked {
    /// Whether workers make the run, or several threads the runs.
    pub(crate) by_workers: bool,
    /// The limits of a run whose log is printed.
    pub(crate) logged: Option<Limits>,
}

/// What these words ask for.
pub(crate) fn asked_of(alloc: Global, words: &[String]) -> Result<Asked, AllocError> {
    match read_words(alloc, words) {
        Ok(Command::Runs(run)) => Ok(Asked {
            by_workers: matches!(run.source, Source::Workers { .. }),
            logged: match run.shown {
                Shown::Output | Shown::Gathered => Some(run.limits),
                _ => None,
            },
        }),
        Ok(Command::Explores(explore)) => Ok(Asked {
            by_workers: explore.settings.jobs != Some(1),
            logged: None,
        }),
        Ok(Command::Makes(_) | Command::Tries(_) | Command::Searches(_) | Command::Pairs(_))
        | Err(WordsError::Wrong(_)) => Ok(Asked {
            by_workers: false,
            logged: None,
        }),
        Err(WordsError::NoMemory) => Err(AllocError),
    }
}

/// A run of a row.
#[derive(Clone, Copy, Drop)]
pub(crate) struct Run<'a> {
    pub(crate) row: &'a Row,
    /// Its command line, and the place of that among those of the row.
    pub(crate) line: &'a str,
    pub(crate) place: usize,
    /// The words of the command line, and what they ask for.
    pub(crate) words: &'a [String],
    pub(crate) asked: Asked,
    /// The calls of the devices that fail, as `shelf 5 sink 1`; nothing where none does.
    pub(crate) failing: &'a str,
    /// The status that is due.
    pub(crate) status: u64,
}

impl Run<'_> {
    /// The files of the row, on a shelf whose calls fail where the run says so.
    pub(crate) fn shelf(&self, alloc: Global) -> io::Result<MemShelf> {
        let failing = failing_calls(alloc, self.failing, "shelf")?;
        Ok(MemShelf::new(alloc, self.files(alloc)?, failing)?)
    }

    /// A sink whose calls fail where the run says so.
    pub(crate) fn sink(&self, alloc: Global) -> io::Result<MemSink> {
        let failing = failing_calls(alloc, self.failing, "sink")?;
        Ok(MemSink::new(alloc, ROOM, failing)?)
    }

    /// The files of the row, on a shelf that never fails.
    pub(crate) fn sure_shelf(&self, alloc: Global) -> Result<SureShelf, AllocError> {
        Ok(SureShelf::new(alloc, self.files(alloc)?))
    }

    fn files(&self, alloc: Global) -> Result<Vec<(String, Vec<u8>)>, AllocError> {
        let row = self.row;
        shelf_files(alloc, row.file("F"), row.file("G"), row.file("S"))
    }
}

/// A sink that never fails.
pub(crate) fn sure_sink(alloc: Global) -> Result<SureSink, AllocError> {
    SureSink::new(alloc, ROOM)
}

/// The words of a command line, which spaces separate; where it has a tab, tabs alone do.
pub(crate) fn words_of(alloc: Global, line: &str) -> Result<Vec<String>, AllocError> {
    let mut words = Vec::new(alloc);
    let is_by_tabs = line.contains('\t');
    for word in line.split(if is_by_tabs { '\t' } else { ' ' }) {
        if is_by_tabs || !word.is_empty() {
            words.push(String::from_str(alloc, word)?)?;
        }
    }
    Ok(words)
}

/// Which calls of a device fail, counted from 1: the numbers that follow its word.
fn failing_calls(alloc: Global, failing: &str, device: &str) -> io::Result<Vec<u64>> {
    let mut calls = Vec::new(alloc);
    let mut is_of_device = false;
    for word in failing.split_whitespace() {
        match (word, number_in(word.as_bytes())) {
            ("shelf" | "sink", _) => is_of_device = word == device,
            (_, Some(number)) if is_of_device => calls.push(number)?,
            (_, Some(_)) => {}
            (_, None) => return Err(ErrorKind::InvalidData.into()),
        }
    }
    Ok(calls)
}
