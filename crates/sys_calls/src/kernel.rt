//! The kernel's tables.

ghost use Rattle.std.specs.Prelude.{◌≡◌};

use crate::console::Console;
use crate::rseq_areas::{Areas, copy_areas};
use kernel_threads::Threads;
use mach_types::Registered;
use scheduler::Ready;
use signals::Signals;

/// What the kernel keeps of a process: its threads, the actions of signals with what each thread masks and what is pending for it,
/// which threads are ready and on which harts each may run, their areas, for which barriers it is registered, the console, and the
/// generator of random bytes.
#[derive(Drop)]
pub struct Kernel {
    /// The threads, with what each keeps while it doesn't run.
    pub threads: Threads,
    /// The actions of signals, and the mask and the pending signals of each thread.
    pub signals: Signals,
    /// The ready list and the affinities.
    pub ready: Ready,
    /// The registered areas, each with its thread.
    pub areas: Areas,
    /// For which barriers the process is registered (membarrier(2)).
    pub registered: Registered,
    /// The bytes that were written.
    pub console: Console,
    /// The state of the generator from which getrandom(2) takes its bytes.
    pub random: u64,
}

impl Kernel {
    /// What the kernel keeps of another process, in place of its own. It takes no memory.
    pub fn copy_from(&mut self, other: &Kernel)
        ensures { self.new ≡ other.now }
    {
        self.threads.copy_from(&other.threads);
        self.signals.copy_from(&other.signals);
        self.ready.copy_from(&other.ready);
        copy_areas(&mut self.areas, &other.areas);
        self.registered = other.registered;
        self.console.copy_from(&other.console);
        self.random = other.random;
    }
}
