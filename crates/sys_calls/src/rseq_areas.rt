//! The registered areas of threads (rseq(2)).

ghost use Rattle.std.specs.Prelude.{◌≡◌, ◌<◌, ◌++◌, ◌∷◌, [], length};
ghost use Rattle.mach_types.specs.Kernel.Areas as areas;
ghost use Rattle.mach_types.specs.declared.kernel_words.TheConstants.{MOST_THREADS};
ghost use Rattle.sys_calls.specs.Registered.{areas_by_number};

use crate::kernel::Kernel;
use arrayvec::ArrayVec;
use mach_types::{Area, MOST_THREADS, Tid};

/// How many areas there is room for: one for each thread that may live.
pub const MOST_AREAS: usize = MOST_THREADS as usize;

/// A registered area, with its thread.
#[derive(Clone, Copy, Drop)]
pub struct RegisteredArea {
    /// The thread.
    pub tid: Tid,
    /// Its area.
    pub area: Area,
}

impl Default for RegisteredArea {
    /// An area of no thread.
    fn default() -> RegisteredArea {
        RegisteredArea {
            tid: Tid(0),
            area: Area { at: 0, sig: 0 },
        }
    }
}

/// The registered areas, each with its thread.
pub type Areas = ArrayVec<RegisteredArea, MOST_AREAS>;

/// Gives a list the areas of another.
pub(crate) fn copy_areas(areas: &mut Areas, other: &Areas)
    ensures { areas.new.items ≡ other.now.items }
{
    areas.clear();
    let _ = areas.try_extend_from_slice(other);
}

/// The area that is registered for a thread.
pub fn area_of(kernel: &Kernel, tid: Tid) -> Option<Area>
    ensures { result ≡ areas.area_of tid.0 (areas_by_number kernel.now.areas.items) }
{
    area_among(&kernel.areas, tid)
}

/// The area of a thread among those that are registered.
fn area_among(registered: &[RegisteredArea], tid: Tid) -> Option<Area>
    ensures { result ≡ areas.area_of tid.0 (areas_by_number registered.now) }
{
    for entry in registered {
        if entry.tid == tid {
            return Some(entry.area);
        }
    }
    None
}

/// A thread that has no area gets one.
pub fn add_area(registered: &mut Areas, tid: Tid, area: Area)
    requires room { length registered.old.items < MOST_THREADS }
    ensures { areas_by_number registered.new.items
        ≡ areas.with_area tid.0 area (areas_by_number registered.old.items) }
{
    registered.push(RegisteredArea { tid, area });
}

/// A thread has no area any more.
pub fn remove_area(registered: &mut Areas, tid: Tid)
    ensures { areas_by_number registered.new.items
        ≡ areas.without_area tid.0 (areas_by_number registered.old.items) }
{
    registered.retain(|entry| entry.tid != tid);
}
