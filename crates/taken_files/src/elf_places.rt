//! What a fault of a program's file is about, read from its bytes.

ghost use Rattle.std.specs.Prelude.{◌≡◌, ◌+◌, ◌*◌, ◌<◌, ◌≤◌, Some, length};
ghost use Rattle.byte_views.specs.Words.{word_at};
ghost use Rattle.elf_load.specs.Fields.{e_phnum, e_phoff};
ghost use Rattle.elf_load.specs.Faults.{first_fault};
ghost use Rattle.outcomes.specs.ElfPlaces.{place_of, segment_at, span_of};

use byte_views::read_word;
use call_reasons::{ElfPlace, Span};
use elf_load::ElfFault;
use mach_types::Limits;

/// The size of a program header.
const ENTRY_SIZE: usize = 56;

// Where the file header has the entry, and the offset of the program header table.
const E_ENTRY: usize = 24;

const E_PHOFF: usize = 32;

// Where a program header has the offset and the address of its segment, and its size in the file and in memory.
const P_OFFSET: usize = 8;

const P_VADDR: usize = 16;

const P_FILESZ: usize = 32;

const P_MEMSZ: usize = 40;

/// What the first fault of a file is about.
pub(crate) fn place_of(file: &[u8], limits: &Limits, fault: ElfFault) -> Option<ElfPlace>
    requires { first_fault file.now limits.now.frames ≡ Some fault }
    ensures { result ≡ place_of file.now limits.now fault }
{
    match fault {
        ElfFault::Segment(k)
        | ElfFault::Align(k)
        | ElfFault::WritableCode(k)
        | ElfFault::Overlap(k) => Some(segment_at(file, k)),
        ElfFault::Entry => Some(ElfPlace::Entry(xword(file, E_ENTRY))),
        ElfFault::TooLarge(needed) => Some(ElfPlace::Frames {
            needed,
            given: limits.frames,
        }),
        ElfFault::Short
        | ElfFault::Magic
        | ElfFault::Class
        | ElfFault::Endian
        | ElfFault::Version
        | ElfFault::FileKind
        | ElfFault::Machine
        | ElfFault::Flags(_)
        | ElfFault::Headers
        | ElfFault::Dynamic
        | ElfFault::NoMemory => None,
    }
}

/// The segment whose program header stands at this index of the table.
fn segment_at(file: &[u8], k: usize) -> ElfPlace
    requires index { k < e_phnum file.now }
    requires table { e_phoff file.now + 56 * e_phnum file.now ≤ length file.now }
    ensures { segment_at file.now k ≡ Some result }
{
    let header = xword(file, E_PHOFF) as usize + ENTRY_SIZE * k;
    let address = xword(file, header + P_VADDR);
    let offset = xword(file, header + P_OFFSET);
    let memory_size = xword(file, header + P_MEMSZ);
    let file_size = xword(file, header + P_FILESZ);
    let memory = span_of(address, memory_size);
    let bytes = span_of(offset, file_size);
    ElfPlace::Segment {
        memory,
        file: bytes,
    }
}

/// So many addresses or bytes from a first one.
fn span_of(from: u64, size: u64) -> Span
    ensures { result ≡ span_of from size }
{
    Span {
        from,
        to: from.saturating_add(size),
    }
}

/// A number of eight bytes.
fn xword(file: &[u8], at: usize) -> u64
    requires { at + 8 ≤ length file.now }
    ensures { result ≡ word_at file.now at 8 }
{
    match read_word(file, at, 8) {
        Some(number) => number,
        None => unreachable!(),
    }
}
