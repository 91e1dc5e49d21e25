//! What a row is: the files of its folder.

use crate::lines::number_line;
use std::alloc::{AllocError, Global};
use std::io::{self, ErrorKind};
use std::rt::Files;
use std::{fs, str};

/// The files that a row may have: the program `F`, a second one `G` and the script `S`, which its command lines may name; the
/// command lines, and the calls of the devices that fail; the status and the text that are due; what standard
/// error is to say; and whether two workers are to overlap. examples/README.md says what each holds.
const NAMES: [&str; 13] = [
    "F", "G", "S", "words", "fails", "status", "stdout", "any-hart", "begins", "ends", "stderr",
    "told", "meets",
];

/// A file of a row.
#[derive(Drop)]
struct RowFile {
    name: &'static str,
    bytes: Vec<u8>,
}

/// A row: its name, and the files of its folder.
#[derive(Drop)]
pub(crate) struct Row {
    /// GROUP/NAME.
    pub(crate) name: String,
    files: Vec<RowFile>,
}

impl Row {
    /// The row of this name, with those of its files that are there.
    pub(crate) fn read<R: Files + AllocGlobal>(rt: &R, name: &str) -> io::Result<Row> {
        let mut files = Vec::new(rt.alloc());
        for file in NAMES {
            if let Some(bytes) = read_file(rt, name, file)? {
                files.push(RowFile { name: file, bytes })?;
            }
        }
        Ok(Row {
            name: String::from_str(rt.alloc(), name)?,
            files,
        })
    }

    /// The bytes of a file, if it is there.
    pub(crate) fn file(&self, name: &str) -> Option<&[u8]> {
        for file in &self.files {
            if file.name == name {
                return Some(&file.bytes);
            }
        }
        None
    }

    /// The text of a file; none where it isn't there or isn't UTF-8.
    pub(crate) fn text(&self, name: &str) -> Option<&str> {
        str::from_utf8(self.file(name)?).ok()
    }

    /// The status that is due.
    pub(crate) fn status(&self) -> Option<u64> {
        let (status, _) = number_line(self.file("status")?, b"")?;
        Some(status)
    }

    /// The choices of calls that fail, one a line: where there is no such file, one of no call.
    pub(crate) fn choices(&self) -> Option<&str> {
        match self.file("fails") {
            Some(_) => self.text("fails"),
            None => Some("\n"),
        }
    }
}

/// The bytes of a file in a folder, if it is there.
pub(crate) fn read_file<R: Files + AllocGlobal>(
    rt: &R,
    folder: &str,
    file: &str,
) -> io::Result<Option<Vec<u8>>> {
    let path = format!(in rt.alloc(); "{folder}/{file}")?;
    match fs::read(rt, path.as_str()) {
        Ok(bytes) => Ok(Some(bytes)),
        Err(error) if error.kind() == ErrorKind::NotFound => Ok(None),
        Err(error) => Err(error),
    }
}

/// The files that the words of a command line may name, as a shelf takes them.
pub(crate) fn shelf_files(
    alloc: Global,
    program: Option<&[u8]>,
    second: Option<&[u8]>,
    script: Option<&[u8]>,
) -> Result<Vec<(String, Vec<u8>)>, AllocError> {
    let mut files = Vec::new(alloc);
    for (name, bytes) in [("F", program), ("G", second), ("S", script)] {
        if let Some(bytes) = bytes {
            files.push((String::from_str(alloc, name)?, bytes.to_vec(alloc)?))?;
        }
    }
    Ok(files)
}
