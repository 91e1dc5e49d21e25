//! The file of a guest, and the text of a trial, which runs one.

ghost use Rattle.std.specs.Prelude.{◌≡◌, IfErr, IfOk};
ghost use Rattle.mach_types.specs.Limits.{InRange};
ghost use Rattle.elf_load.specs.Images.{IsBootable};
ghost use Rattle.command_words.specs.Commands.{trial_limits};
ghost use Rattle.call_reasons.specs.declared.reasons.Reason.TheVariants.{NoMemory};
ghost use Rattle.outcomes.specs.Delivery.{IsGuestReason};
ghost use Rattle.outcomes.specs.Guests.{IsGuestImage, IsGuestOutput, IsTrialOutput};

use call_reasons::Reason;
use command_words::{Guest, Trial};
use elf_load::{ElfFault, Image, load};
use guest_programs::{GuestFault, make};
use mach_types::Limits;
use rule_runs::run_rounds;
use run_texts::Output;
use shown_runs::trial_text;
use std::alloc::Global;

/// The file of a guest, to be written.
pub fn guest_output(alloc: Global, guest: Guest) -> Result<Output, Reason>
    ensures output { IfOk result (IsGuestOutput guest) }
    ensures cause { IfErr result (IsGuestReason guest) }
{
    Ok(Output::whole(guest_file(alloc, guest)?))
}

/// The file of a guest.
fn guest_file(alloc: Global, guest: Guest) -> Result<Vec<u8>, Reason>
    ensures output { IfOk result (λ file. IsGuestOutput guest file.items) }
    ensures cause { IfErr result (IsGuestReason guest) }
{
    match make(alloc, guest.name, guest.size) {
        Ok(file) => Ok(file),
        Err(GuestFault::BadSize(size)) => Err(Reason::Guest(size)),
        Err(GuestFault::NoMemory) => Err(Reason::NoMemory),
    }
}

/// The image of a guest.
fn guest_image(alloc: Global, guest: Guest, limits: &Limits) -> Result<Image, Reason>
    requires { limits.now.frames ≡ 4096 }
    ensures image { IfOk result (IsGuestImage guest limits.now) }
    ensures bootable { IfOk result (IsBootable limits.now.frames) }
    ensures cause { IfErr result (IsGuestReason guest) }
{
    let file = guest_file(alloc, guest)?;
    match load(alloc, &file, limits) {
        Ok(image) => Ok(image),
        Err(fault) => Err(unloaded(fault)),
    }
}

/// Why the file of a guest isn't loaded: it has no fault, so memory is short.
fn unloaded(_fault: ElfFault) -> Reason
    requires { _fault ≡ ElfFault.NoMemory }
    ensures { result ≡ NoMemory }
{
    Reason::NoMemory
}

/// The text of a trial.
pub fn tried(alloc: Global, trial: &Trial) -> Result<Output, Reason>
    requires { InRange (trial_limits trial.now) }
    ensures output { IfOk result (λ text. IsTrialOutput trial.now text) }
    ensures cause { IfErr result (IsGuestReason trial.now.guest) }
{
    let limits = trial.limits();
    let image = guest_image(alloc, trial.guest, &limits)?;
    let machine = run_rounds(alloc, &image, limits, trial.seed)?;
    Ok(Output::whole(trial_text(alloc, &image, &limits, &machine)?))
}
