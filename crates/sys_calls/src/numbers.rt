//! set_tid_address(2).

ghost use Rattle.std.specs.Prelude.{◌≡◌, ℕ, [], IsTrue, Ok};
ghost use Rattle.mach_types.specs.Kernel.Threads.{is_live};
ghost use Rattle.page_map.specs.Map.{Map};
ghost use Rattle.block_model.specs.Here.{Here};
ghost use Rattle.block_model.specs.Calls.Numbers.{set_tid_address};
ghost use Rattle.block_model.specs.Tables.{IsTables};
ghost use Rattle.sys_calls.specs.Answered.{IsAnswered, IsRead};
ghost use Rattle.sys_calls.specs.Tables.{HoldsTables};

use crate::arguments::argument;
use crate::kernel::Kernel;
use mach_types::{Saved, Tid};

/// set_tid_address(p): sets the address of the word that the thread's exit clears, and answers the thread's number.
pub fn set_tid_address(kernel: &mut Kernel, tid: Tid, saved: &Saved) -> u32
    requires live { IsTrue (is_live tid.0 kernel.old.threads.threads) }
    ensures answered { (h : Here) (m : Map) → HoldsTables kernel.old h.kernel → IsRead h m tid.0 saved.now
        → IsAnswered h tid.0 kernel.old m kernel.new m [] (Ok result) (set_tid_address h tid.0) }
{
    kernel.threads.set_clear(tid, argument(saved, 0));
    tid.0
}
