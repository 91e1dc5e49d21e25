//! What a fault says of itself (sigaction(2), `siginfo_t`).

ghost use Rattle.std.specs.Prelude.{◌≡◌, ◌/◌};
ghost use Rattle.std.specs.Option.{option_copied};
ghost use Rattle.block_model.specs.Instruction as spec;
ghost use Rattle.page_map.specs.Map.{permission_in};

use mach_types::Fault;
use mach_types::signals::{
    BUS_ADRALN, ILL_ILLOPC, SEGV_ACCERR, SEGV_MAPERR, SIGBUS, SIGILL, SIGSEGV, TRAP_BRKPT,
};
use page_map::PageMap;
use rv_inst::{Effect, asks};

/// Where the access of an instruction at a pc begins, and how many bytes it has: the 4 bytes at the pc where it has none, and
/// where no instruction is there.
fn reach_of(pc: u64, effect: Option<&Effect>) -> (u64, u8)
    ensures { result ≡ spec.reach_of pc (option_copied effect.entry) }
{
    match effect {
        Some(effect) => match asks(effect).access {
            Some(access) => (access.at, access.size),
            None => (pc, 4),
        },
        None => (pc, 4),
    }
}

/// `si_code` of a SIGSEGV at these bytes: whether the pages of the first and the last are mapped, or one isn't.
fn segment_code(pages: &PageMap, reach: (u64, u8)) -> u32
    ensures { result ≡ spec.segment_code (λ a. permission_in pages.now (a / 4096)) reach }
{
    let last = reach.0.wrapping_add(u64::from(reach.1.saturating_sub(1)));
    if pages.perm(reach.0).is_some() && pages.perm(last).is_some() {
        SEGV_ACCERR
    } else {
        SEGV_MAPERR
    }
}

/// `si_code` of a fault at these bytes, by its signal.
fn code_told(pages: &PageMap, reach: (u64, u8), signal: u8) -> u32
    ensures { result ≡ spec.code_told (λ a. permission_in pages.now (a / 4096)) reach signal }
{
    if signal == SIGSEGV {
        segment_code(pages, reach)
    } else if signal == SIGILL {
        ILL_ILLOPC
    } else if signal == SIGBUS {
        BUS_ADRALN
    } else {
        TRAP_BRKPT
    }
}

/// What a fault with this signal says of itself, of an instruction at a pc with this effect, or where there is none.
pub(crate) fn told_by(pages: &PageMap, pc: u64, effect: Option<&Effect>, signal: u8) -> Fault
    ensures { result
        ≡ spec.told_by (λ a. permission_in pages.now (a / 4096)) pc (option_copied effect.entry) signal }
{
    let reach = reach_of(pc, effect);
    Fault {
        signal,
        code: code_told(pages, reach, signal),
        address: if signal == SIGSEGV { reach.0 } else { pc },
    }
}
