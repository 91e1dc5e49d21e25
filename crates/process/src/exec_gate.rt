//! Pages that a call would take from stores that wait: it waits until they have entered memory.

ghost use Rattle.std.specs.Prelude.{◌≡◌, ◌<◌, ◌+◌, ◌^◌, ◌&&◌, ℕ, Some, length, nat_le, nat_lt};
ghost use Rattle.std.specs.List.{list_any};
ghost use Rattle.std.specs.Option.{option_copied};
ghost use Rattle.hart_state.specs.declared.hart.HartState.{HartState as State};
ghost use Rattle.block_model.specs.Events.Exec.{is_held, others_gate, refusal_exec};
ghost use Rattle.block_model.specs.Here.{runs};
ghost use Rattle.block_model.specs.Plain.{Plain, here_in_plain};
ghost use Rattle.block_model.specs.Setting.{Setting};
ghost use Rattle.block_model.specs.Stands.{Stand, here_at};
ghost use Rattle.process.specs.ExecGates.{AreOfSegment, IsNextAt, lies_in, lies_outside};
ghost use Rattle.process.specs.Refinement.{IsTied};
ghost use Rattle.sys_calls.specs.Remapped.{has_page};

use crate::next::{Next, is_call};
use crate::parts::Parts;
use hart_state::HartState;
use mach_types::{Hart, Why};
use rv_inst::Effect;
use sys_calls::{PageSpan, pages_taken};

/// Those of some pages that are below one.
fn below(pages: PageSpan, end: u64) -> PageSpan
    ensures { (n : ℕ) → has_page result n ≡ (has_page pages n && nat_lt n end) }
{
    let most = end.saturating_sub(pages.first);
    let count = pages.count.min(most);
    PageSpan {
        first: pages.first,
        count,
    }
}

/// Those of some pages from one on.
fn from_on(pages: PageSpan, start: u64) -> PageSpan
    ensures { (n : ℕ) → has_page result n ≡ (has_page pages n && nat_le start n) }
{
    let skipped = start.saturating_sub(pages.first);
    let first = pages.first.max(start);
    let count = pages.count.saturating_sub(skipped);
    PageSpan { first, count }
}

/// Whether a byte of a store that waits on a hart lies on one of these pages.
fn waits_in(state: &HartState, pages: PageSpan) -> bool
    ensures { result ≡ list_any (lies_in pages) state.now.buffer }
{
    state.buffer.touches_any(pages.first, pages.count)
}

/// Whether a byte of a store that waits on a hart lies on one of some pages, but not on one of those that are kept.
fn waits_outside(state: &HartState, pages: PageSpan, kept: PageSpan) -> bool
    requires { kept.first + kept.count < 2 ^ 64 }
    ensures { result ≡ list_any (lies_outside pages kept) state.now.buffer }
{
    let low = waits_in(state, below(pages, kept.first));
    let high = waits_in(state, from_on(pages, kept.first + kept.count));
    low || high
}

/// The same of some of these harts.
fn waits_in_any(harts: &[HartState], pages: PageSpan, kept: PageSpan) -> bool
    requires { kept.first + kept.count < 2 ^ 64 }
    ensures { result ≡ list_any (λ (x : State). list_any (lies_outside pages kept) x.buffer) harts.now }
{
    for state in harts {
        if waits_outside(state, pages, kept) {
            return true;
        }
    }
    false
}

impl Parts {
    /// Whether a byte of a store that waits on some hart lies on a page that the call of a hart's thread would take, and not on the
    /// pages of a segment. A call inside a sequence takes none.
    #[inline(never)]
    fn is_held(&self, hart: Hart, segment: PageSpan) -> bool
        requires listed { hart.0 < length self.now.harts.items }
        requires small { segment.first + segment.count < 2 ^ 64 }
        ensures { (v : Stand) (t : ℕ) → IsTied v.setting v.plain self.now → hart.0 < v.setting.limits.harts
            → AreOfSegment v.beside segment → runs (here_at v hart.0) ≡ Some t
            → result ≡ is_held (here_at v hart.0) t }
    {
        if self.is_inside(hart) {
            return false;
        }
        let state = &self.harts[hart.0 as usize];
        let taken = pages_taken(&self.pages, &state.file);
        waits_in_any(&self.harts, taken, segment)
    }

    /// Why an instruction with this effect waits for stores of other harts; None where it doesn't.
    #[inline]
    fn others_gate(&self, hart: Hart, effect: Option<&Effect>, segment: PageSpan) -> Option<Why>
        requires listed { hart.0 < length self.now.harts.items }
        requires small { segment.first + segment.count < 2 ^ 64 }
        ensures { (v : Stand) (t : ℕ) → IsTied v.setting v.plain self.now → hart.0 < v.setting.limits.harts
            → AreOfSegment v.beside segment → runs (here_at v hart.0) ≡ Some t
            → result ≡ others_gate (is_held (here_at v hart.0) t) (option_copied effect.entry) }
    {
        if is_call(effect) && self.is_held(hart, segment) {
            Some(Why::Others)
        } else {
            None
        }
    }

    /// Why the thread on a hart may not execute its next instruction, which is this; None where it may. The hart must be one of
    /// the list, and the instruction that of [`next_of`](crate::next_of) for its state: what is answered holds wherever the parts
    /// are tied to a place at which that is the next instruction. The first condition that fails is answered.
    #[inline]
    pub fn exec_gate(&self, hart: Hart, next: &Next) -> Option<Why>
        requires { hart.0 < length self.now.harts.items }
        ensures { (s : Setting) (p : Plain) → IsTied s p self.now → hart.0 < s.limits.harts
            → IsNextAt (here_in_plain s p hart.0) next.now
            → result ≡ refusal_exec (here_in_plain s p hart.0) }
    {
        self.exec_gate_beside(hart, next, PageSpan { first: 0, count: 0 })
    }

    /// The same of a process that may share a segment with another one: `segment` has its pages, and is empty where the process
    /// shares none. No call takes these pages, so no call waits for stores to them.
    #[inline]
    pub fn exec_gate_beside(&self, hart: Hart, next: &Next, segment: PageSpan) -> Option<Why>
        requires listed { hart.0 < length self.now.harts.items }
        requires small { segment.first + segment.count < 2 ^ 64 }
        ensures { (v : Stand) → IsTied v.setting v.plain self.now → hart.0 < v.setting.limits.harts
            → AreOfSegment v.beside segment → IsNextAt (here_at v hart.0) next.now
            → result ≡ refusal_exec (here_at v hart.0) }
    {
        let state = &self.harts[hart.0 as usize];
        match state.exec_gate(next.effect.as_ref(), next.fault.is_some()) {
            Some(why) => Some(why),
            None => self.others_gate(hart, next.effect.as_ref(), segment),
        }
    }
}
