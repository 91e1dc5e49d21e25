//! A gate that shows whether two workers overlap.

use mach_types::Hart;
use outside::Gate;
use std::sync::atomic::{AtomicBool, Ordering};

/// How often a worker looks for another at most.
const LOOKS: u32 = 50_000_000;

/// A gate at which the workers of harts 0 and 1 wait for one another before their first turns, and which
/// remembers whether one of them looked in vain.
#[derive(Drop)]
pub(crate) struct Meeting {
    first: AtomicBool,
    second: AtomicBool,
    in_vain: AtomicBool,
}

impl Meeting {
    /// No worker has come yet.
    pub(crate) fn new() -> Meeting {
        Meeting {
            first: AtomicBool::new(false),
            second: AtomicBool::new(false),
            in_vain: AtomicBool::new(false),
        }
    }

    /// Whether both workers have come, and neither looked in vain.
    pub(crate) fn met(&self) -> bool {
        self.first.load(Ordering::SeqCst)
            && self.second.load(Ordering::SeqCst)
            && !self.in_vain.load(Ordering::SeqCst)
    }
}

impl Gate for Meeting {
    fn pass(&self, hart: Hart) {
        let (own, other) = if hart.0 == 0 {
            (&self.first, &self.second)
        } else {
            (&self.second, &self.first)
        };
        if own.swap(true, Ordering::SeqCst) {
            return;
        }
        for _ in 0..LOOKS {
            if other.load(Ordering::SeqCst) {
                return;
            }
        }
        self.in_vain.store(true, Ordering::SeqCst);
    }
}
