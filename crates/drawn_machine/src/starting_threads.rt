//! The ready threads that may begin to run on a hart, by rising number.

ghost use Rattle.std.specs.Prelude.{◌≡◌, ◌<◌, ◌≤◌, ◌%◌, ◌^◌, ◌==◌, ◌&&◌, ◌++◌, ◌∷◌, [], ℕ, true, if◌then◌else◌, length};
ghost use Rattle.mach_types.specs.Kernel.Scheduling.{affinity_of};
ghost use Rattle.mach_types.specs.Kernel.Threads.{is_live, is_ready};
ghost use Rattle.scheduler.specs.Holding.{is_held};
ghost use Rattle.drawings.specs.Scenes.{may_begin, startable};
ghost use Rattle.drawn_runs.specs.DrawnRuns.{ready_numbers};

use arrayvec::ArrayVec;
use kernel_threads::Threads;
use mach_types::{Hart, ThreadState, Tid};
use scheduler::Ready;

/// Whether none of the first so many harts is in a set.
fn has_none_of(set: u8, opened: u8) -> bool
    requires { opened ≤ 8 }
    ensures { result ≡ (set % 2 ^ opened == 0) }
{
    u16::from(set) % (1u16 << opened) == 0
}

/// Whether a thread that is held may begin to run on a hart, where the first so many harts are open.
fn may_begin(ready: &Ready, tid: Tid, hart: Hart, opened: u8) -> bool
    requires held { is_held tid.0 ready.now ≡ true }
    requires opened { opened ≤ 8 }
    ensures { result ≡ may_begin opened hart.0 (affinity_of tid.0 ready.now) }
{
    ready.allows(tid, hart) && (hart.0 < opened || has_none_of(ready.affinity(tid), opened))
}

/// Whether a thread is ready and may begin to run there.
fn may_start(threads: &Threads, ready: &Ready, tid: Tid, hart: Hart, opened: u8) -> bool
    requires held { is_held tid.0 ready.now ≡ is_live tid.0 threads.now.threads }
    requires opened { opened ≤ 8 }
    ensures { result ≡ (is_ready tid.0 threads.now.threads
        && may_begin opened hart.0 (affinity_of tid.0 ready.now)) }
{
    match threads.state(tid) {
        Some(ThreadState::Ready) => may_begin(ready, tid, hart, opened),
        Some(ThreadState::Running(_) | ThreadState::Waiting(_)) | None => false,
    }
}

/// Appends a number where it passes: then there is room.
fn push_if(numbers: &mut ArrayVec<u32, 64>, number: u32, passes: bool)
    requires { passes ≡ true → length numbers.old.items < 64 }
    ensures { numbers.new.items ≡ numbers.old.items ++ (if passes then number ∷ [] else []) }
{
    if passes {
        numbers.push(number);
    }
}

/// The ready threads that may begin to run on a hart, where the first so many harts are open: by rising number. The threads
/// that have affinities are those that are live.
pub fn startable_threads(
    threads: &Threads,
    ready: &Ready,
    hart: Hart,
    opened: u8,
) -> ArrayVec<u32, 64>
    requires held { (t : ℕ) → is_held t ready.now ≡ is_live t threads.now.threads }
    requires opened { opened ≤ 8 }
    ensures { result.items
        ≡ startable opened hart.0 (record ready.now { order = ready_numbers threads.now.threads }) }
{
    let live = threads.live();
    prove!(live <= 64);
    let mut startable = ArrayVec::new();
    for earlier in 0..threads.numbers_given() {
        let number = earlier + 1;
        let starts = may_start(threads, ready, Tid(number), hart, opened);
        push_if(&mut startable, number, starts);
    }
    startable
}
