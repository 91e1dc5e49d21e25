//! Where the workers of a run meet before their first events.

use crossbeam_utils::Backoff;
use std::sync::atomic::{AtomicU32, Ordering};
use std::thread;

/// How often a worker that has come looks for the others at most. Between two looks it gives its processor
/// away. (own)
const LOOKS: u32 = 1_000_000;

/// How often a worker looks at most whether the others run, once all have come. Between two looks it spins. (own)
const SPINS: u32 = 10_000;

/// How many workers a run has, how many of them have come, and how many of those have seen that all have.
#[derive(Drop)]
pub(crate) struct Start {
    workers: u32,
    here: AtomicU32,
    running: AtomicU32,
}

impl Start {
    /// None of so many workers has come.
    pub(crate) fn of(workers: u8) -> Start {
        Start {
            workers: u32::from(workers),
            here: AtomicU32::new(0),
            running: AtomicU32::new(0),
        }
    }

    /// Whether the run has one worker.
    pub(crate) fn is_of_one(&self) -> bool {
        self.workers == 1
    }

    /// A worker has come. It waits until all have, and then until all run: one that gave its processor away
    /// meanwhile may get it back late. It waits no longer than its looks last: a thread that can't be started
    /// makes its worker come only when others are done.
    pub(crate) fn meet(&self) {
        self.here.fetch_add(1, Ordering::SeqCst);
        self.wait_for_all();
        self.running.fetch_add(1, Ordering::SeqCst);
        self.spin_for_all();
    }

    /// Waits until all have come.
    fn wait_for_all(&self) {
        for _ in 0..LOOKS {
            if self.here.load(Ordering::SeqCst) >= self.workers {
                return;
            }
            thread::yield_now();
        }
    }

    /// Waits until all run.
    fn spin_for_all(&self) {
        let wait = Backoff::new();
        for _ in 0..SPINS {
            if self.running.load(Ordering::SeqCst) >= self.workers {
                return;
            }
            wait.spin();
        }
    }
}
