//! Whether a thread may rest after its next instruction.

ghost use Rattle.std.specs.Prelude.{◌≡◌, ◌<◌, ℕ, true, length};
ghost use Rattle.rv_inst.specs.Execution.{seen_byte};
ghost use Rattle.page_map.specs.Map.{byte_in};
ghost use Rattle.block_model.specs.Plain.{Plain, here_in_plain};
ghost use Rattle.block_model.specs.Setting.{Setting};
ghost use Rattle.block_model.specs.Tables.{IsTables};
ghost use Rattle.process.specs.Refinement.{IsTied};
ghost use Rattle.settling.specs.Settles.{MaySettle, are_past, is_settling_here};

use crate::areas::glance_of;
use crate::local::local_pc;
use hart_state::HartState;
use mach_types::{Area, Hart};
use page_map::PageMap;
use process::{Code, HartView, Parts};
use sys_calls::area_of;

/// Whether both pcs are outside what an area looks at, as a hart in this state sees memory.
fn are_past(pages: &PageMap, state: &HartState, area: &Area, from: u64, to: u64) -> bool
    ensures { result ≡ are_past (seen_byte state.now.buffer (byte_in pages.now)) area.now from to }
{
    let view = HartView {
        pages,
        buffer: &state.buffer,
    };
    let glance = glance_of(&view, area);
    glance.is_past(from) && glance.is_past(to)
}

/// Whether a thread runs on a hart, which must be one of the list, whose next instruction touches registers
/// and the pc alone, and that is outside what its area looks at, before that instruction and after it.
pub fn is_settling(parts: &Parts, code: &Code, hart: Hart) -> bool
    requires { hart.0 < length parts.now.harts.items }
    ensures { (s : Setting) (p : Plain) → IsTied s p parts.now → hart.0 < s.limits.harts
        → code.now ≡ s.program.pages → result ≡ is_settling_here (here_in_plain s p hart.0) }
{
    let state = &parts.harts[hart.0 as usize];
    let Some(tid) = state.running else {
        return false;
    };
    let Some(pc) = local_pc(code, state) else {
        return false;
    };
    match area_of(&parts.kernel, tid) {
        Some(area) => are_past(&parts.pages, state, &area, state.pc, pc),
        None => true,
    }
}

/// Where a hart is settling, its next instruction is a local step of its thread, which rests outside its
/// area.
pub fn settling_threads_rest()
    ensures { (s : Setting) (p : Plain) (h : ℕ) → is_settling_here (here_in_plain s p h) ≡ true
        → IsTables s.limits.harts p.kernel.threads p.kernel.scheduling → MaySettle s p h }
{}
