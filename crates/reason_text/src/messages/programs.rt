//! Why a program's file is refused, for a person.

use super::shown::Shown;
use call_reasons::{ElfPlace, Span};
use elf_load::ElfFault;
use std::alloc::AllocError;
use std::fmt;
use std::fmt::Write;

/// Appends why a program is refused, and how one is built that is taken, where that helps.
pub(crate) fn push_elf_fault(
    text: &mut String,
    name: &str,
    fault: ElfFault,
    about: Option<ElfPlace>,
) -> Result<(), AllocError> {
    let name = Shown(name);
    let sentence = Sentence(fault);
    write!(text, "{name}: {sentence}")?;
    push_place(text, fault, about)?;
    text.push_str("\n")?;
    if let Some(advice) = advice_on(fault) {
        writeln!(text, "    {advice}")?;
    }
    Ok(())
}

/// What is wrong with a program's file.
#[derive(Drop)]
struct Sentence(ElfFault);

impl fmt::Display for Sentence {
    fn fmt<W: fmt::Write>(&self, f: &mut fmt::Formatter<W>) -> fmt::Result {
        write_numbers(f, self.0)?;
        f.write_str(complaint(self.0))
    }
}

/// Writes the beginning of the sentence, where it has a number.
fn write_numbers<W: fmt::Write>(f: &mut fmt::Formatter<W>, fault: ElfFault) -> fmt::Result {
    match fault {
        ElfFault::Flags(flags) => write!(f, "its e_flags are {flags:#x}, and "),
        ElfFault::TooLarge(needed) => write!(f, "{needed} "),
        ElfFault::Segment(k)
        | ElfFault::Align(k)
        | ElfFault::WritableCode(k)
        | ElfFault::Overlap(k) => write!(f, "segment {k} (program headers are counted from 0) "),
        _ => Ok(()),
    }
}

/// The sentence behind its numbers.
fn complaint(fault: ElfFault) -> &'static str {
    match fault {
        ElfFault::Short => "it is shorter than an ELF header",
        ElfFault::Magic => "it doesn't begin with the magic number of ELF",
        ElfFault::Class => "it isn't of 64 bits (ELFCLASS64)",
        ElfFault::Endian => "it isn't little-endian",
        ElfFault::Version => "its ELF version isn't 1",
        ElfFault::FileKind => "it isn't an executable linked at fixed addresses (ET_EXEC)",
        ElfFault::Machine => "it isn't for RISC-V",
        ElfFault::Flags(_) => {
            "only 0 and 0x10 (TSO) are supported: no compressed code, no floating-point ABI"
        }
        ElfFault::Headers => {
            "its program header table is empty, has more than 64 entries \
             or entries of another size than 56 bytes, or isn't whole in the file"
        }
        ElfFault::Dynamic => "it asks for a dynamic linker or an interpreter",
        ElfFault::Segment(_) => {
            "isn't whole in the file, has more bytes there than in memory, \
             or doesn't lie between the addresses 0x1000 and 0x2000000000"
        }
        ElfFault::Align(_) => "has an address and a file offset that differ modulo 4096",
        ElfFault::WritableCode(_) => "is writable and executable",
        ElfFault::Overlap(_) => "has a page of an earlier segment",
        ElfFault::Entry => "the entry isn't a multiple of 4, or its 4 bytes aren't in code",
        ElfFault::TooLarge(_) => "frames are needed",
        ElfFault::NoMemory => "out of memory",
    }
}

/// Appends what a fault is about.
fn push_place(
    text: &mut String,
    fault: ElfFault,
    about: Option<ElfPlace>,
) -> Result<(), AllocError> {
    match about {
        Some(ElfPlace::Segment { memory, file }) => push_segment(text, fault, memory, file),
        Some(ElfPlace::Entry(entry)) => write!(text, "; it is {entry:#x}"),
        Some(ElfPlace::Frames { given, .. }) => write!(
            text,
            ", and there are {given}; --frames says how many, up to 16384"
        ),
        None => Ok(()),
    }
}

/// Appends what of a segment a fault is about.
fn push_segment(
    text: &mut String,
    fault: ElfFault,
    memory: Span,
    file: Span,
) -> Result<(), AllocError> {
    let address = memory.from;
    let offset = file.from;
    let in_memory = Bounds(memory);
    let in_file = Bounds(file);
    match fault {
        ElfFault::Segment(_) => write!(
            text,
            "; its memory {in_memory}, its part of the file {in_file}"
        ),
        ElfFault::Align(_) => write!(text, "; they are {address:#x} and {offset:#x}"),
        _ => write!(text, "; its memory {in_memory}"),
    }
}

/// Where a span begins and ends. One that ends at the greatest number may be cut off there.
#[derive(Drop)]
struct Bounds(Span);

impl fmt::Display for Bounds {
    fn fmt<W: fmt::Write>(&self, f: &mut fmt::Formatter<W>) -> fmt::Result {
        let Span { from, to } = self.0;
        write!(f, "begins at {from:#x} and ends before {to:#x}")?;
        if to == u64::MAX {
            f.write_str(" or behind it")?;
        }
        Ok(())
    }
}

/// How a file is built that is taken, where that helps.
fn advice_on(fault: ElfFault) -> Option<&'static str> {
    match fault {
        ElfFault::FileKind => Some(
            "build it with examples/common/rvcc (docs/PROGRAMS.md), or link it with -no-pie -static",
        ),
        ElfFault::Machine => Some("build it with examples/common/rvcc (docs/PROGRAMS.md)"),
        ElfFault::Flags(_) => Some(
            "build it with examples/common/rvcc (docs/PROGRAMS.md), \
             or compile and link it with -march=rv64ima -mabi=lp64",
        ),
        ElfFault::Dynamic => Some(
            "build it with examples/common/rvcc (docs/PROGRAMS.md), or link it with -static",
        ),
        ElfFault::WritableCode(_) => Some(
            "compile it with -msmall-data-limit=0, or link it with lld, \
             or with the linux-gnu linker and -z separate-code",
        ),
        _ => None,
    }
}
