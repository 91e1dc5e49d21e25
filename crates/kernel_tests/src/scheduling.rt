//! Tests of `scheduler`: whose turn it is, and on which harts threads may run.

use mach_types::{Hart, Tid};
use scheduler::Ready;
use std::process::Abort;

/// The harts of four on which a thread may run, one bit each.
fn harts_of(ready: &Ready, tid: u32) -> u8 {
    let mut set = 0;
    for hart in 0..4 {
        if ready.allows(Tid(tid), Hart(hart)) {
            set |= 1 << hart;
        }
    }
    set
}

/// The harts on which each of these threads may run.
fn expect_harts(rt: &impl Abort, ready: &Ready, rows: &[(u32, u8)]) {
    for (tid, set) in rows {
        assert!(rt; harts_of(ready, *tid) == *set, "thread {tid}");
    }
}

#[test]
fn threads_take_turns(rt: HostRuntime) {
    let mut ready = Ready::new(2);
    ready.add(Tid(1), Tid(2));
    assert!(rt; !ready.take(Tid(2)));
    assert!(rt; !ready.is_ready(Tid(2)));
    ready.push(Tid(2));
    assert!(rt; ready.is_ready(Tid(2)));
    assert!(rt; ready.first_for(Hart(1)) == Some(Tid(1)));
    assert!(rt; ready.take(Tid(1)));
    assert!(rt; ready.first_for(Hart(1)) == Some(Tid(2)));
    ready.push(Tid(1));
    assert!(rt; ready.first_for(Hart(1)) == Some(Tid(2)));
}

#[test]
fn affinity_decides(rt: HostRuntime) {
    let mut ready = Ready::new(4);
    assert!(rt; ready.set_affinity(Tid(1), 0b1111_1100, 4).is_ok());
    ready.add(Tid(1), Tid(2));
    assert!(rt; ready.affinity(Tid(2)) == 0b1100);
    assert!(rt; ready.set_affinity(Tid(2), 0b0011, 4).is_ok());
    ready.push(Tid(2));
    assert!(rt; ready.first_for(Hart(0)) == Some(Tid(2)));
    assert!(rt; ready.first_for(Hart(3)) == Some(Tid(1)));
    assert!(rt; ready.set_affinity(Tid(2), 0b1000, 4).is_ok());
    assert!(rt; ready.first_for(Hart(0)).is_none());
    assert!(rt; ready.first_for(Hart(3)) == Some(Tid(1)));
    assert!(rt; ready.take(Tid(1)));
    assert!(rt; ready.first_for(Hart(3)) == Some(Tid(2)));
}

/// Threads 1, 4 and 9, and numbers that none has.
const GIVEN: [(u32, u8); 7] = [
    (1, 0b1111),
    (4, 0b1000),
    (9, 0b0110),
    (0, 0),
    (2, 0),
    (5, 0),
    (10, 0),
];

/// The threads once 9 is gone.
const LEFT: [(u32, u8); 3] = [(1, 0b1111), (4, 0b1000), (9, 0)];

#[test]
fn numbers_come_in_any_order(rt: HostRuntime) {
    let mut ready = Ready::new(4);
    ready.add(Tid(1), Tid(9));
    assert!(rt; ready.set_affinity(Tid(9), 0b0110, 4).is_ok());
    ready.add(Tid(9), Tid(4));
    assert!(rt; ready.set_affinity(Tid(4), 0b1000, 4).is_ok());
    expect_harts(&rt, &ready, &GIVEN);
    ready.remove(Tid(9));
    expect_harts(&rt, &ready, &LEFT);
}
