//! The words of an area (rseq(2)): which of them have another number after an event of the kernel.

ghost use Rattle.std.specs.Prelude.{◌≡◌, ℕ, ◌++◌, None, OnOk};
ghost use Rattle.mach_types.specs.Bytes.{IsAccessSize};
ghost use Rattle.mach_types.specs.Events.{choice_of};
ghost use Rattle.block_model.specs.Here.{memory};
ghost use Rattle.block_model.specs.Sequences.{area_here};
ghost use Rattle.event_facts.specs.Areas as spec;
ghost use Rattle.event_facts.specs.Areas.{area_before, area_facts, changed_words, kept_words, word_fact};
ghost use Rattle.event_facts.specs.Telling.{here_on};

use fact_types::{AreaField, Fact, SystemCall};
use mach_types::sequences::{CPU_ID, FLAGS, MM_CID, NODE_ID, RSEQ_CS};
use mach_types::{Area, Entry, Kind, Tid};
use machine_core::Machine;
use std::alloc::AllocError;
use sys_calls::area_of;

/// The numbers in the fields of an area; None where a byte of one can't be read.
#[derive(Clone, Copy, Drop)]
pub(crate) struct AreaWords {
    pub(crate) cpu_id_start: Option<u64>,
    pub(crate) cpu_id: Option<u64>,
    pub(crate) rseq_cs: Option<u64>,
    pub(crate) flags: Option<u64>,
    pub(crate) node_id: Option<u64>,
    pub(crate) mm_cid: Option<u64>,
}

/// An area before an event.
#[derive(Clone, Copy, Drop)]
pub(crate) struct AreaBefore {
    /// The area.
    pub(crate) area: Area,
    /// What stood there.
    pub(crate) words: AreaWords,
}

/// The number in a field of an area, of so many bytes, in memory; None where one of them can't be read.
fn number_of(machine: &Machine, area: Area, offset: u64, size: u8) -> Option<u64>
    requires { IsAccessSize size }
    ensures { (h : ℕ) → result ≡ spec.number_of (memory (here_on machine.now h)) area offset size }
{
    machine.memory(area.at.wrapping_add(offset), size)
}

/// The numbers in the fields of an area.
fn words_of(machine: &Machine, area: Area) -> AreaWords
    ensures { (h : ℕ) → result ≡ spec.words_of (memory (here_on machine.now h)) area }
{
    let cpu_id_start = number_of(machine, area, 0, 4);
    let cpu_id = number_of(machine, area, CPU_ID, 4);
    let rseq_cs = number_of(machine, area, RSEQ_CS, 8);
    let flags = number_of(machine, area, FLAGS, 4);
    let node_id = number_of(machine, area, NODE_ID, 4);
    let mm_cid = number_of(machine, area, MM_CID, 4);
    AreaWords {
        cpu_id_start,
        cpu_id,
        rseq_cs,
        flags,
        node_id,
        mm_cid,
    }
}

/// The area of a thread, and what stands there; None where it has none.
pub(crate) fn area_kept(machine: &Machine, tid: Tid) -> Option<AreaBefore>
    ensures { (h : ℕ) → result ≡ area_before (here_on machine.now h) tid.0 }
{
    let area = area_of(machine.kernel(), tid)?;
    Some(AreaBefore {
        area,
        words: words_of(machine, area),
    })
}

/// Whether a number is this one.
fn is_number(value: u64, which: Option<u64>) -> bool
    ensures { result ≡ spec.is_number value which }
{
    which == Some(value)
}

/// Appends the number of a field, where that is another one than before, or couldn't be read before.
fn push_word(
    facts: &mut Vec<Fact>,
    field: AreaField,
    before: Option<u64>,
    after: Option<u64>,
) -> Result<(), AllocError>
    ensures { OnOk result (facts.new.items ≡ facts.old.items ++ word_fact field before after) }
{
    let Some(value) = after else {
        return Ok(());
    };
    if !is_number(value, before) {
        facts.push(Fact::AreaWord { field, value })?;
    }
    Ok(())
}

/// Appends each field of an area whose number is another one.
fn push_changed(
    facts: &mut Vec<Fact>,
    before: &AreaWords,
    after: &AreaWords,
) -> Result<(), AllocError>
    ensures { OnOk result (facts.new.items ≡ facts.old.items ++ changed_words before.now after.now) }
{
    push_word(
        facts,
        AreaField::CpuIdStart,
        before.cpu_id_start,
        after.cpu_id_start,
    )?;
    push_word(facts, AreaField::CpuId, before.cpu_id, after.cpu_id)?;
    push_word(facts, AreaField::RseqCs, before.rseq_cs, after.rseq_cs)?;
    push_word(facts, AreaField::Flags, before.flags, after.flags)?;
    push_word(facts, AreaField::NodeId, before.node_id, after.node_id)?;
    push_word(facts, AreaField::MmCid, before.mm_cid, after.mm_cid)?;
    Ok(())
}

/// Appends the words of an area that was registered.
fn push_kept(facts: &mut Vec<Fact>, after: &AreaWords) -> Result<(), AllocError>
    ensures { OnOk result (facts.new.items ≡ facts.old.items ++ kept_words after.now) }
{
    push_word(facts, AreaField::CpuIdStart, None, after.cpu_id_start)?;
    push_word(facts, AreaField::CpuId, None, after.cpu_id)?;
    push_word(facts, AreaField::NodeId, None, after.node_id)?;
    push_word(facts, AreaField::MmCid, None, after.mm_cid)?;
    Ok(())
}

/// Appends the words of the area of a thread that had none before; nothing where it has none.
fn push_registered(facts: &mut Vec<Fact>, machine: &Machine, tid: Tid) -> Result<(), AllocError>
    ensures { OnOk result ((h : ℕ) → facts.new.items ≡ facts.old.items
        ++ spec.area_words None (memory (here_on machine.now h)) (area_here (here_on machine.now h) tid.0)) }
{
    let Some(area) = area_of(machine.kernel(), tid) else {
        return Ok(());
    };
    let after = words_of(machine, area);
    push_kept(facts, &after)?;
    Ok(())
}

/// Appends what became of the words of a thread's area, which had this one before; those that the kernel keeps,
/// where it had none.
fn push_words(
    facts: &mut Vec<Fact>,
    machine: &Machine,
    tid: Tid,
    before: Option<AreaBefore>,
) -> Result<(), AllocError>
    ensures { OnOk result ((h : ℕ) → facts.new.items ≡ facts.old.items
        ++ spec.area_words before (memory (here_on machine.now h)) (area_here (here_on machine.now h) tid.0)) }
{
    let Some(kept) = before else {
        push_registered(facts, machine, tid)?;
        return Ok(());
    };
    let after = words_of(machine, kept.area);
    push_changed(facts, &kept.words, &after)?;
    Ok(())
}

/// Whether the kernel writes in an entry, which is this call or none.
fn is_of_kernel(entry: Entry, call: Option<SystemCall>) -> bool
    ensures { result ≡ spec.is_of_kernel (choice_of entry) call }
{
    match entry.kind {
        Kind::Exec => call.is_some(),
        Kind::Take | Kind::Run | Kind::Signal => true,
        _ => false,
    }
}

/// Appends what became of the words of the area of an entry's thread, which had this one before; nothing where
/// the kernel writes nothing in such an entry.
pub(crate) fn push_area(
    facts: &mut Vec<Fact>,
    machine: &Machine,
    entry: Entry,
    call: Option<SystemCall>,
    before: Option<AreaBefore>,
) -> Result<(), AllocError>
    ensures { OnOk result (facts.new.items ≡ facts.old.items
        ++ area_facts (choice_of entry) call before (here_on machine.now entry.hart.0) entry.tid.0) }
{
    if !is_of_kernel(entry, call) {
        return Ok(());
    }
    push_words(facts, machine, entry.tid, before)?;
    Ok(())
}
