//! rseq(2): a thread registers its area, or unregisters it.

ghost use Rattle.std.specs.Prelude.{◌≡◌, ◌≤◌, ◌%◌, ◌++◌, ◌^◌, ◌==◌, ℕ, None, [], IfErr, IfOk};
ghost use Rattle.mach_types.specs.Kernel.Areas as areas;
ghost use Rattle.mach_types.specs.Registers.{register as register_in};
ghost use Rattle.page_map.specs.Map.{can_write_in};
ghost use Rattle.block_model.specs.Here.{Here};
ghost use Rattle.block_model.specs.Ids.{id_of};
ghost use Rattle.block_model.specs.Calls.Sequences.{registers, registers_or_refused, rseq as rseq_of, unregisters_or_refused};
ghost use Rattle.sys_calls.specs.Answered.{IsAnswered, IsCaller, IsEntered, IsRead};
ghost use Rattle.sys_calls.specs.Tables.{HoldsTables};
ghost use Rattle.sys_calls.specs.Made.{HasPages, IsMade};
ghost use Rattle.sys_calls.specs.Registered.{HoldAreas, areas_by_number, area_asked, unregistration_asked};

use crate::arguments::{argument, go_on, int_argument};
use crate::calling::CallEnd;
use crate::kernel::Kernel;
use crate::memory::Written;
use crate::rseq_areas::{add_area, area_of, remove_area};
use mach_types::errors::EFAULT;
use mach_types::signals::SIGSEGV;
use mach_types::{Area, End, Errno, Hart, Saved, Tid};
use page_map::PageMap;
use rseq_area::{register, set_cpu, unregister, words_written};

/// `cpu_id` of an area that is registered no longer: RSEQ_CPU_ID_UNINITIALIZED (uapi linux/rseq.h).
const UNINITIALIZED: u32 = 0xFFFF_FFFF;

/// The node of every hart.
const NODE: u32 = 0;

/// Writes the four words of an area, and tells it; false exactly where one of their bytes can't be written, and then nothing changes.
fn write_words(
    pages: &mut PageMap,
    written: &mut Written,
    area: &Area,
    start: u32,
    id: u32,
    cid: u32,
) -> bool
    requires fresh { written.old.items ≡ [] }
    ensures answer { result ≡ areas.are_words_writable (can_write_in pages.old) area.now }
    ensures entered { IsEntered pages.old pages.new written.new.items }
    ensures told { let words : areas.Words
        = record { cpu_id_start = start; cpu_id = id; node_id = 0; mm_cid = cid } in
        written.new.items ≡ areas.words_entered result area.now words }
{
    if !set_cpu(pages, area, start, id, NODE, cid) {
        return false;
    }
    let _ = written.try_extend_from_slice(&words_written(area, start, id, NODE, cid));
    true
}

/// The area that the call asks to register, as [`register`] answers.
fn asked_area(kernel: &Kernel, tid: Tid, saved: &Saved) -> Result<Area, Errno>
    ensures answer { result
        ≡ area_asked saved.now (areas.area_of tid.0 (areas_by_number kernel.now.areas.items)) }
    ensures errno { IfErr result (λ e. 1 ≤ e.0) }
    ensures none { IfOk result (λ area. areas.area_of tid.0 (areas_by_number kernel.now.areas.items) ≡ None) }
{
    register(
        area_of(kernel, tid),
        argument(saved, 0),
        int_argument(saved, 1),
        int_argument(saved, 2),
        int_argument(saved, 3),
    )
}

/// Whether the call may unregister, as [`unregister`] answers.
fn may_unregister(kernel: &Kernel, tid: Tid, saved: &Saved) -> Result<(), Errno>
    ensures answer { result
        ≡ unregistration_asked saved.now (areas.area_of tid.0 (areas_by_number kernel.now.areas.items)) }
    ensures errno { IfErr result (λ e. 1 ≤ e.0) }
{
    unregister(
        area_of(kernel, tid),
        argument(saved, 0),
        int_argument(saved, 1),
        int_argument(saved, 2),
        int_argument(saved, 3),
    )
}

/// Registers an area, which gets the words of its thread: the hart twice, node 0 and the thread's concurrency id. Where they can't be
/// written the process is killed, and nothing changes.
fn register_area(
    kernel: &mut Kernel,
    pages: &mut PageMap,
    written: &mut Written,
    here: Hart,
    tid: Tid,
    saved: &mut Saved,
    cid: u8,
    area: Area,
) -> CallEnd
    requires caller { IsCaller kernel.old here.0 tid.0 }
    requires areas { HoldAreas kernel.old }
    requires none { areas.area_of tid.0 (areas_by_number kernel.old.areas.items) ≡ None }
    requires fresh { written.old.items ≡ [] }
    ensures told { (h : Here) → h.hart ≡ here.0 → IsRead h pages.old tid.0 saved.old
        → id_of tid.0 h.kernel.ids ≡ cid
        → written.new.items ≡ (registers h tid.0 area).entered }
    ensures made { (h : Here) → h.hart ≡ here.0 → HoldsTables kernel.old h.kernel → HasPages h pages.old
        → IsRead h pages.old tid.0 saved.old
        → id_of tid.0 h.kernel.ids ≡ cid
        → IsMade h tid.0 kernel.old pages.old kernel.new pages.new saved.new result (registers h tid.0 area) }
{
    let hart = u32::from(here.0);
    if !write_words(pages, written, &area, hart, hart, u32::from(cid)) {
        return CallEnd::ProcessEnd(End::Killed(SIGSEGV));
    }
    add_area(&mut kernel.areas, tid, area);
    go_on(saved, Ok(0))
}

/// Registers the area that the call asks for, unless it is refused.
fn register_asked(
    kernel: &mut Kernel,
    pages: &mut PageMap,
    written: &mut Written,
    here: Hart,
    tid: Tid,
    saved: &mut Saved,
    cid: u8,
) -> CallEnd
    requires caller { IsCaller kernel.old here.0 tid.0 }
    requires areas { HoldAreas kernel.old }
    requires fresh { written.old.items ≡ [] }
    ensures told { (h : Here) → h.hart ≡ here.0 → HoldsTables kernel.old h.kernel
        → IsRead h pages.old tid.0 saved.old → id_of tid.0 h.kernel.ids ≡ cid
        → written.new.items
        ≡ (registers_or_refused h tid.0 (area_asked saved.old (areas.area_of tid.0 h.kernel.areas))).entered }
    ensures made { (h : Here) → h.hart ≡ here.0 → HoldsTables kernel.old h.kernel → HasPages h pages.old
        → IsRead h pages.old tid.0 saved.old
        → id_of tid.0 h.kernel.ids ≡ cid
        → IsMade h tid.0 kernel.old pages.old kernel.new pages.new saved.new result
        (registers_or_refused h tid.0 (area_asked saved.old (areas.area_of tid.0 h.kernel.areas))) }
{
    match asked_area(kernel, tid, saved) {
        Ok(area) => register_area(kernel, pages, written, here, tid, saved, cid, area),
        Err(errno) => go_on(saved, Err(errno)),
    }
}

/// Unregisters the thread's area, which gets the words of one that is registered no longer. EFAULT, beside the refusals of
/// [`may_unregister`], where they can't be written.
fn unregister_area(
    kernel: &mut Kernel,
    pages: &mut PageMap,
    written: &mut Written,
    tid: Tid,
    saved: &Saved,
) -> Result<u64, Errno>
    requires fresh { written.old.items ≡ [] }
    ensures errno { IfErr result (λ e. 1 ≤ e.0) }
    ensures others { kernel.new ≡ record kernel.old { areas = kernel.new.areas } }
    ensures answered { (h : Here) → HoldsTables kernel.old h.kernel → IsRead h pages.old tid.0 saved.now
        → IsAnswered h tid.0 kernel.old pages.old kernel.new pages.new written.new.items result
        (unregisters_or_refused h tid.0
        (unregistration_asked saved.now (areas.area_of tid.0 h.kernel.areas))) }
{
    may_unregister(kernel, tid, saved)?;
    let Some(area) = area_of(kernel, tid) else {
        return Err(EFAULT);
    };
    if !write_words(pages, written, &area, 0, UNINITIALIZED, 0) {
        return Err(EFAULT);
    }
    remove_area(&mut kernel.areas, tid);
    Ok(0)
}

/// Whether the call asks to unregister.
fn asks_to_unregister(saved: &Saved) -> bool
    ensures { result ≡ (register_in saved.now.file 12 % 2 ^ 32 % 2 == 1) }
{
    int_argument(saved, 2) % 2 == 1
}

/// rseq(area, len, flags, sig): registers the area for the thread, or unregisters it where the lowest flag is set, and answers 0.
/// Refused as [`register`] and [`unregister`] say, and with EFAULT where an area that is to be unregistered can't be written; where
/// one that is to be registered can't be written the process is killed. `len`, `flags` and `sig` are the low 32 bits of their
/// registers, and `cid` is the concurrency id that the thread holds.
pub fn rseq(
    kernel: &mut Kernel,
    pages: &mut PageMap,
    written: &mut Written,
    here: Hart,
    tid: Tid,
    saved: &mut Saved,
    cid: u8,
) -> CallEnd
    requires caller { IsCaller kernel.old here.0 tid.0 }
    requires areas { HoldAreas kernel.old }
    requires fresh { written.old.items ≡ [] }
    ensures told { (h : Here) → h.hart ≡ here.0 → HoldsTables kernel.old h.kernel
        → IsRead h pages.old tid.0 saved.old → id_of tid.0 h.kernel.ids ≡ cid
        → written.new.items ≡ (rseq_of h tid.0).entered }
    ensures made { (h : Here) → h.hart ≡ here.0 → HoldsTables kernel.old h.kernel → HasPages h pages.old
        → IsRead h pages.old tid.0 saved.old
        → id_of tid.0 h.kernel.ids ≡ cid
        → IsMade h tid.0 kernel.old pages.old kernel.new pages.new saved.new result (rseq_of h tid.0) }
{
    if asks_to_unregister(saved) {
        let outcome = unregister_area(kernel, pages, written, tid, saved);
        go_on(saved, outcome)
    } else {
        register_asked(kernel, pages, written, here, tid, saved, cid)
    }
}
