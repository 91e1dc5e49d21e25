//! The files of a command: the images of its programs are taken, and its script is read.

ghost use Rattle.std.specs.Prelude.{◌≡◌, ◌<◌, ◌≤◌, ◌⊎◌, All, Some, IfOk, IfErr, length};
ghost use Rattle.elf_load.specs.Images.{IsBootable};
ghost use Rattle.elf_load.specs.Faults.{first_fault};
ghost use Rattle.outside.specs.Counts.{NoneFalls};
ghost use Rattle.command_words.specs.Commands.{Script};
ghost use Rattle.outcomes.specs.Delivery.{IsFileReason, IsLoadReason, IsTakeReason};
ghost use Rattle.outcomes.specs.Needs.{Program as NeedsProgram, needs_by};
ghost use Rattle.outcomes.specs.Programs.{IsProgram, IsReadAs, IsScript};
ghost use Rattle.call_reasons.specs.Reasons.{most_program_bytes};
ghost use Rattle.outcomes.specs.Reasons.{IsReasonFor};
ghost use Rattle.call_reasons.specs.Reasons.{most_bytes};

use crate::elf_places::place_of;
use call_reasons::{FileRole, Reason};
use elf_load::{ElfFault, Image, load};
use mach_types::Limits;
use outside::{FetchError, Shelf, fetch};
use std::alloc::Global;

/// What was read are bytes.
fn shows_bytes(bytes: &[u8])
    ensures { All (λ b. b < 256) bytes.now }
{}

/// The image of the program of this name.
pub fn taken<S: Shelf>(
    alloc: Global,
    name: &str,
    limits: &Limits,
    shelf: &mut S,
) -> Result<Image, Reason>
    ensures taken { IfOk result (IsProgram (S.file shelf.old) name.now limits.now) }
    ensures bootable { IfOk result (IsBootable limits.now.frames) }
    ensures cause { let needs = NeedsProgram name.now limits.now in
        IfErr result (IsReasonFor (S.file shelf.old) needs (S.faults shelf.old) (S.faults shelf.new)
        (S.last_trouble shelf.new)) }
    ensures files { S.file shelf.new ≡ S.file shelf.old }
    ensures counts { NoneFalls (S.faults shelf.old) (S.faults shelf.new) }
{
    taken_as(alloc, name, FileRole::Program, limits, shelf)
}

/// The files of a run by a script: the program's image, and the script's bytes.
#[derive(Drop)]
pub struct ScriptFiles {
    /// The program's image.
    pub image: Image,
    /// The script's bytes.
    pub lines: Vec<u8>,
}

/// The image of the program of the first name, and the script of the second.
pub fn scripted<S: Shelf>(
    alloc: Global,
    program: &str,
    script: &str,
    limits: Limits,
    shelf: &mut S,
) -> Result<ScriptFiles, Reason>
    ensures taken { IfOk result (λ files. IsProgram (S.file shelf.old) program.now limits files.image) }
    ensures bootable { IfOk result (λ files. IsBootable limits.frames files.image) }
    ensures read { IfOk result (λ files. IsScript (S.file shelf.old) script.now files.lines.items) }
    ensures cause { let needs = needs_by program.now (Script script.now) limits in
        IfErr result (IsReasonFor (S.file shelf.old) needs (S.faults shelf.old) (S.faults shelf.new)
        (S.last_trouble shelf.new)) }
    ensures files { S.file shelf.new ≡ S.file shelf.old }
    ensures counts { NoneFalls (S.faults shelf.old) (S.faults shelf.new) }
{
    let image = taken(alloc, program, &limits, shelf)?;
    let lines = read_file(alloc, script, FileRole::Script, shelf)?;
    Ok(ScriptFiles { image, lines })
}

/// The image of the program of this name, which has this role.
pub fn taken_as<S: Shelf>(
    alloc: Global,
    name: &str,
    role: FileRole,
    limits: &Limits,
    shelf: &mut S,
) -> Result<Image, Reason>
    requires { most_bytes role ≡ most_program_bytes }
    ensures taken { IfOk result (IsProgram (S.file shelf.old) name.now limits.now) }
    ensures bootable { IfOk result (IsBootable limits.now.frames) }
    ensures cause { IfErr result
        (IsTakeReason (S.file shelf.old) name.now role limits.now (S.faults shelf.old) (S.faults shelf.new)
        (S.last_trouble shelf.new)) }
    ensures files { S.file shelf.new ≡ S.file shelf.old }
    ensures counts { NoneFalls (S.faults shelf.old) (S.faults shelf.new) }
{
    let bytes = read_file(alloc, name, role, shelf)?;
    shows_bytes(&bytes);
    match load(alloc, &bytes, limits) {
        Ok(image) => Ok(image),
        Err(fault) => Err(refusal(role, &bytes, limits, fault)),
    }
}

/// Why the loader takes no image from these bytes, which are those of a file of this role, by its fault.
fn refusal(role: FileRole, bytes: &[u8], limits: &Limits, fault: ElfFault) -> Reason
    requires { (fault ≡ ElfFault.NoMemory) ⊎ (first_fault bytes.now limits.now.frames ≡ Some fault) }
    ensures { IsLoadReason role bytes.now limits.now result }
{
    match fault {
        ElfFault::NoMemory => Reason::NoMemory,
        _ => Reason::Elf {
            file: role,
            fault,
            about: place_of(bytes, limits, fault),
        },
    }
}

/// The bytes of the file of this name, which has this role.
pub fn read_file<S: Shelf>(
    alloc: Global,
    name: &str,
    role: FileRole,
    shelf: &mut S,
) -> Result<Vec<u8>, Reason>
    ensures read { IfOk result (λ bytes. IsReadAs (S.file shelf.old) name.now bytes.items) }
    ensures fits { IfOk result (λ bytes. length bytes.items ≤ most_bytes role) }
    ensures cause { IfErr result
        (IsFileReason (S.file shelf.old) name.now role (S.faults shelf.old) (S.faults shelf.new)
        (S.last_trouble shelf.new)) }
    ensures files { S.file shelf.new ≡ S.file shelf.old }
    ensures counts { NoneFalls (S.faults shelf.old) (S.faults shelf.new) }
{
    match fetch(alloc, shelf, name, role.most_bytes()) {
        Ok(bytes) => Ok(bytes),
        Err(FetchError::Failed) => Err(Reason::Unread {
            file: role,
            trouble: shelf.trouble(),
        }),
        Err(FetchError::TooBig) => Err(Reason::TooBig(role)),
        Err(FetchError::NoMemory) => Err(Reason::NoMemory),
    }
}
