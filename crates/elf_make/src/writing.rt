//! The bytes of the file.

ghost use Rattle.std.specs.Prelude.{◌≡◌, ◌⊎◌, ◌++◌, Some, None, length, IfErr, IfOk, OnOk};
ghost use Rattle.elf_load.specs.declared.image.Image.{Image};
ghost use Rattle.elf_load.specs.Faults.{frames_needed};
ghost use Rattle.elf_load.specs.Images.{IsImage};
ghost use Rattle.elf_make.specs.Parts.{IsImageOf, NeedsFrames};
ghost use Rattle.elf_make.specs.Layout.{contents_from, field, file_header, file_of, header_end, header_start, table_entry};
ghost use Rattle.elf_make.specs.Refusals.{refusal, segments_of};
ghost use Rattle.std.specs.List.{flat_map};
ghost use Rattle.byte_views.specs.Words.{IsWordSize};

use crate::layout::{ENTRY_SIZE, FILE_HEADER_SIZE, place_from, placed};
use crate::parts::{MakeFault, Part, Parts};
use crate::refusals::{bad_index, segments_of};
use byte_views::write_word;
use elf_load::ProgramHeader;
use mach_types::address_space::PAGE_SIZE;
use std::alloc::{AllocError, Global};

/// How a file begins: 64-bit objects, little-endian, version 1.
const IDENTIFICATION: [u8; 16] = [0x7f, b'E', b'L', b'F', 2, 1, 1, 0, 0, 0, 0, 0, 0, 0, 0, 0];

// What the next fields of a file header are.
const ET_EXEC: u64 = 2;

const EM_RISCV: u64 = 243;

const EV_CURRENT: u64 = 1;

/// The file of a program. It has no fault but the want of frames, and is loaded to just the parts.
pub fn write_elf(alloc: Global, parts: &Parts) -> Result<Vec<u8>, MakeFault>
    ensures refused { IfErr result
        (λ fault. (fault ≡ MakeFault.NoMemory) ⊎ (refusal parts.now ≡ Some fault)) }
    ensures taken { OnOk result (refusal parts.now ≡ None) }
    ensures bytes { IfOk result (λ file. file.items ≡ file_of parts.now) }

    // With frames enough the file has no fault, and its image is that of the parts.
    ensures frames { IfOk result (λ file. NeedsFrames file.items (frames_needed (segments_of parts.now))) }
    ensures image { IfOk result
        (λ file. (image : Image) → IsImage file.items image → IsImageOf parts.now image) }
{
    let segments = segments_of(alloc, &parts.segments)?;
    if let Some(k) = bad_index(parts, &segments) {
        return Err(MakeFault::BadParts(k));
    }
    let headers = placed(alloc, &parts.segments)?;
    let mut file = Vec::new(alloc);
    let entry = parts.entry;
    let flags = parts.flags;
    push_file_header(&mut file, entry, flags, parts.segments.len() as u16)?;
    push_table(&mut file, &headers)?;
    push_contents(&mut file, &parts.segments)?;
    Ok(file)
}

/// Appends a number of so many bytes, the lowest byte first.
fn push_field(file: &mut Vec<u8>, size: usize, number: u64) -> Result<(), AllocError>
    requires { IsWordSize size }
    ensures { OnOk result (file.new.items ≡ file.old.items ++ field size number) }
{
    let mut bytes = [0; 8];
    let _fits = write_word(&mut bytes, 0, size, number);
    file.extend_from_slice(&bytes[..size])
}

fn push_file_header(
    file: &mut Vec<u8>,
    entry: u64,
    flags: u32,
    count: u16,
) -> Result<(), AllocError>
    ensures { OnOk result (file.new.items ≡ file.old.items ++ file_header entry flags count) }
{
    push_header_start(file, entry)?;
    push_header_end(file, flags, count)
}

#[tactic(auto, unfolding(crate::specs::Layout::header_start))]
fn push_header_start(file: &mut Vec<u8>, entry: u64) -> Result<(), AllocError>
    ensures { OnOk result (file.new.items ≡ file.old.items ++ header_start entry) }
{
    file.extend_from_slice(&IDENTIFICATION)?;
    push_field(file, 2, ET_EXEC)?;
    push_field(file, 2, EM_RISCV)?;
    push_field(file, 4, EV_CURRENT)?;
    push_field(file, 8, entry)
}

#[tactic(auto, unfolding(crate::specs::Layout::header_end))]
fn push_header_end(file: &mut Vec<u8>, flags: u32, count: u16) -> Result<(), AllocError>
    ensures { OnOk result (file.new.items ≡ file.old.items ++ header_end flags count) }
{
    push_field(file, 8, FILE_HEADER_SIZE)?;
    push_field(file, 8, 0)?;
    push_field(file, 4, u64::from(flags))?;
    push_field(file, 2, FILE_HEADER_SIZE)?;
    push_field(file, 2, ENTRY_SIZE)?;
    push_field(file, 2, u64::from(count))?;
    push_field(file, 2, 0)?;
    push_field(file, 2, 0)?;
    push_field(file, 2, 0)
}

/// Appends the program header table.
fn push_table(file: &mut Vec<u8>, headers: &[ProgramHeader]) -> Result<(), AllocError>
    ensures { OnOk result (file.new.items ≡ file.old.items ++ flat_map table_entry headers.now) }
{
    for header in headers {
        push_table_entry(file, header)?;
    }
    Ok(())
}

#[tactic(auto, unfolding(crate::specs::Layout::table_entry))]
fn push_table_entry(file: &mut Vec<u8>, header: &ProgramHeader) -> Result<(), AllocError>
    ensures { OnOk result (file.new.items ≡ file.old.items ++ table_entry header.now) }
{
    push_field(file, 4, u64::from(header.kind))?;
    push_field(file, 4, u64::from(header.flags))?;
    push_field(file, 8, header.offset)?;
    push_field(file, 8, header.vaddr)?;
    push_field(file, 8, header.vaddr)?;
    push_field(file, 8, header.filesz)?;
    push_field(file, 8, header.memsz)?;
    push_field(file, 8, PAGE_SIZE)
}

/// Appends the bytes of each part at its place, with zeros before it.
fn push_contents(file: &mut Vec<u8>, parts: &[Part]) -> Result<(), AllocError>
    ensures { OnOk result
        (file.new.items ≡ file.old.items ++ contents_from (length file.old.items) parts.now) }
{
    for part in parts {
        let place = place_from(file.len() as u64, part.at);
        file.resize(place as usize, 0)?;
        file.extend_from_slice(&part.bytes)?;
    }
    Ok(())
}
