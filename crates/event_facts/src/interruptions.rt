//! Interruptions of threads (rseq(2)): what they came to, and which word was wrong where one killed the
//! process.

ghost use Rattle.std.specs.Prelude.{◌≡◌, ◌<◌, option_to_list};
ghost use Rattle.mach_types.specs.Bytes.{IsAccessSize};
ghost use Rattle.block_model.specs.Here.{view};
ghost use Rattle.event_facts.specs.Interruptions as spec;
ghost use Rattle.event_facts.specs.{Interruptions.interrupted_facts, Telling.here_on};

use crate::deeds::Range;
use crate::reads::number_seen;
use fact_types::{Fact, Interruption, WrongWord};
use mach_types::address_space::USER_END;
use mach_types::sequences::{FLAGS, RSEQ_CS};
use mach_types::{Area, BadWhy, Entry, Hart, Outcome};
use machine_core::Machine;
use sys_calls::area_of;

/// Where `flags` stands in a `struct rseq_cs`, 4 bytes. Before it, at the descriptor's address, stands
/// `version`.
const SEQ_FLAGS: u64 = 4;

/// Where `start_ip` stands there, 8 bytes.
const START_IP: u64 = 8;

/// Where `post_commit_offset` stands there, 8 bytes: how long the sequence is.
const POST_COMMIT_OFFSET: u64 = 16;

/// Where `abort_ip` stands there, 8 bytes: the abort handler.
const ABORT_IP: u64 = 24;

/// The field of so many bytes that stands behind an address.
fn field(at: u64, offset: u64, size: u8) -> Range
    requires { IsAccessSize size }
    ensures field { result ≡ spec.field at offset size }
    ensures size { IsAccessSize result.size }
{
    Range {
        at: at.wrapping_add(offset),
        size,
    }
}

/// The number in a field, as a hart sees it; 0 where a byte of it can't be read.
fn number_in(machine: &Machine, hart: Hart, field: Range) -> u64
    requires hart { hart.0 < machine.now.setting.limits.harts }
    requires size { IsAccessSize field.size }
    ensures { result ≡ spec.number_in (view (here_on machine.now hart.0)) field }
{
    number_seen(machine, hart, field.at, field.size)
}

/// Of a sequence that isn't below the end of addresses, the field for which it isn't.
fn far_field(machine: &Machine, hart: Hart, at: u64) -> Range
    requires { hart.0 < machine.now.setting.limits.harts }
    ensures field { result ≡ spec.far_field (view (here_on machine.now hart.0)) at }
    ensures size { IsAccessSize result.size }
{
    let start = field(at, START_IP, 8);
    if number_in(machine, hart, start) >= USER_END {
        return start;
    }
    let abort = field(at, ABORT_IP, 8);
    if number_in(machine, hart, abort) >= USER_END {
        return abort;
    }
    field(at, POST_COMMIT_OFFSET, 8)
}

/// Of a sequence without the signature, the word that isn't it.
fn signature_field(machine: &Machine, hart: Hart, at: u64) -> Range
    requires { hart.0 < machine.now.setting.limits.harts }
    ensures field { result ≡ spec.signature_field (view (here_on machine.now hart.0)) at }
    ensures size { IsAccessSize result.size }
{
    let handler = field(at, ABORT_IP, 8);
    let abort = number_in(machine, hart, handler);
    if abort < 4 {
        return handler;
    }
    Range {
        at: abort - 4,
        size: 4,
    }
}

/// Of an area and its descriptor, the flags that are set.
fn set_field(machine: &Machine, hart: Hart, area: Area, at: u64) -> Range
    requires { hart.0 < machine.now.setting.limits.harts }
    ensures field { result ≡ spec.set_field (view (here_on machine.now hart.0)) area at }
    ensures size { IsAccessSize result.size }
{
    let flags = field(area.at, FLAGS, 4);
    if number_in(machine, hart, flags) == 0 {
        field(at, SEQ_FLAGS, 4)
    } else {
        flags
    }
}

/// The field for which an area is bad.
fn wrong_field(machine: &Machine, hart: Hart, area: Area, why: BadWhy) -> Range
    requires { hart.0 < machine.now.setting.limits.harts }
    ensures field { result ≡ spec.wrong_field (view (here_on machine.now hart.0)) area why }
    ensures size { IsAccessSize result.size }
{
    let pointer = field(area.at, RSEQ_CS, 8);
    let at = number_in(machine, hart, pointer);
    match why {
        BadWhy::AreaBytes | BadWhy::Pointer => pointer,
        BadWhy::Descriptor | BadWhy::Version => Range { at, size: 4 },
        BadWhy::Range => far_field(machine, hart, at),
        BadWhy::AbortInside => field(at, ABORT_IP, 8),
        BadWhy::Signature => signature_field(machine, hart, at),
        BadWhy::SeqFlags => set_field(machine, hart, area, at),
    }
}

/// The word for which an area is bad.
fn wrong_word(machine: &Machine, hart: Hart, area: Area, why: BadWhy) -> WrongWord
    requires { hart.0 < machine.now.setting.limits.harts }
    ensures { result ≡ spec.word_in (view (here_on machine.now hart.0))
        (spec.wrong_field (view (here_on machine.now hart.0)) area why) }
{
    let field = wrong_field(machine, hart, area, why);
    WrongWord {
        at: field.at,
        value: machine.view(hart, field.at, field.size),
    }
}

/// What the interruption of a thread with this area, which was at this pc, came to.
fn told_of(machine: &Machine, hart: Hart, area: Area, pc: u64, outcome: Outcome) -> Interruption
    requires { hart.0 < machine.now.setting.limits.harts }
    ensures { result ≡ spec.told_of (view (here_on machine.now hart.0)) area pc outcome }
{
    match outcome {
        Outcome::Nothing => Interruption::Nothing,
        Outcome::Cleared => Interruption::Cleared,
        Outcome::Aborted(to) => Interruption::Aborted { from: pc, to },
        Outcome::Killed(why) => Interruption::Killed {
            why,
            wrong: wrong_word(machine, hart, area, why),
        },
    }
}

/// The same of a thread that may have no area.
fn interruption_of(
    machine: &Machine,
    hart: Hart,
    area: Option<Area>,
    pc: u64,
    outcome: Outcome,
) -> Interruption
    requires { hart.0 < machine.now.setting.limits.harts }
    ensures { result ≡ spec.interruption_of (view (here_on machine.now hart.0)) area pc outcome }
{
    match area {
        Some(area) => told_of(machine, hart, area, pc, outcome),
        None => Interruption::Nothing,
    }
}

/// What the interruption of the thread of an entry came to, which was made; None where there was none.
pub(crate) fn interrupted(machine: &Machine, entry: Entry, came: Option<Outcome>) -> Option<Fact>
    requires { entry.hart.0 < machine.now.setting.limits.harts }
    ensures { option_to_list result ≡ interrupted_facts (here_on machine.now entry.hart.0) entry came }
{
    let outcome = came?;
    let area = area_of(machine.kernel(), entry.tid);
    let interruption = interruption_of(machine, entry.hart, area, entry.pc, outcome);
    Some(Fact::Interrupted(interruption))
}
