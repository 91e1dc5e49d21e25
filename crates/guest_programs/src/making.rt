//! Makes a guest.

ghost use Rattle.std.specs.Prelude.{◌≡◌, ◌<◌, All, false, Err, IfOk, IfErr};
ghost use Rattle.guest_names.specs.Guests.{is_size};
ghost use Rattle.guest_programs.specs.Guests.{IsFaultOf, IsGuestFile};

use crate::data::data_of;
use crate::emitting::assembler;
use crate::fault::GuestFault;
use crate::parts::parts_of;
use elf_make::{MakeFault, write_elf};
use guest_names::Name;
use rv_asm::AsmFault;
use std::alloc::Global;

/// What was written are bytes.
fn shows_bytes(bytes: &[u8])
    ensures { All (λ b. b < 256) bytes.now }
{}

/// Makes a guest for a size: the bytes of an ELF file.
pub fn make(alloc: Global, name: Name, n: u64) -> Result<Vec<u8>, GuestFault>
    ensures guest { IfOk result (λ file. IsGuestFile name n file.items) }
    ensures size { is_size name n ≡ false → result ≡ Err (GuestFault.BadSize n) }
    ensures fault { IfErr result (λ fault. IsFaultOf name n fault) }
{
    if !name.takes(n) {
        return Err(GuestFault::BadSize(n));
    }
    let asm = assembler(alloc, name)?;
    let data = data_of(alloc, &asm, n)?;
    let code = match asm.finish(alloc) {
        Ok(code) => code,
        Err(AsmFault::NoMemory) => return Err(GuestFault::NoMemory),
        Err(AsmFault::UnboundLabel(_)) => unreachable!(),
        Err(AsmFault::TooFar(_)) => unreachable!(),
    };
    let parts = parts_of(alloc, code, data)?;
    match write_elf(alloc, &parts) {
        Ok(file) => {
            shows_bytes(&file);
            Ok(file)
        }
        Err(MakeFault::NoMemory) => Err(GuestFault::NoMemory),
        Err(MakeFault::BadParts(_)) => unreachable!(),
    }
}
