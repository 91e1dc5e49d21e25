//! Tests of `membarrier_cmds`: worked rows, with values found by hand.

use mach_types::{Answer, Hart, Registered};
use membarrier_cmds::command;

/// Nothing is registered.
const NONE: Registered = Registered {
    global: false,
    private: false,
    rseq: false,
};

/// Everything is registered.
const ALL: Registered = Registered {
    global: true,
    private: true,
    rseq: true,
};

/// The negatives of error numbers (errno(3)).
const EPERM: Answer = Answer::Value(-1);

const EINVAL: Answer = Answer::Value(-22);

/// A barrier on harts 0 and 3.
const TWO_HARTS: Answer = Answer::Begin {
    targets: 0b1001,
    restart: false,
};

/// Barriers that ask for a restart, on harts 0 and 3, and on hart 3 alone.
const TWO_RESTARTS: Answer = Answer::Begin {
    targets: 0b1001,
    restart: true,
};

const ONE_RESTART: Answer = Answer::Begin {
    targets: 0b1000,
    restart: true,
};

/// Arguments of membarrier(2): command, flags, processor.
type Arguments = (i32, u32, i32);

/// Calls one after another, on a machine of one hart.
const CALLS: [(Arguments, Answer); 12] = [
    ((0, 0, 0), Answer::Value(927)),
    ((8, 0, 0), EPERM),
    ((128, 0, 0), EPERM),
    ((1, 1, 0), EINVAL),
    ((32, 0, 0), EINVAL),
    ((-1, 0, 0), EINVAL),
    ((512, 0, 0), Answer::Value(0)),
    ((16, 0, 0), Answer::Value(0)),
    ((256, 0, 0), Answer::Value(0)),
    ((512, 0, 0), Answer::Value(272)),
    ((128, 1, 99), Answer::Value(0)),
    ((128, 2, 0), EINVAL),
];

#[test]
fn one_thread_calls(rt: HostRuntime) {
    let mut regs = NONE;
    for ((cmd, flags, cpu), expected) in &CALLS {
        let answer = command(&mut regs, *cmd, *flags, *cpu, Hart(0), 0b1, 1);
        assert!(rt; answer == *expected, "{cmd} {flags} {cpu}");
    }
    assert!(rt; !regs.global && regs.private && regs.rseq);
}

/// What is registered, and a call.
const AMONG_FOUR: [(Registered, Arguments, Answer); 13] = [
    (NONE, (1, 0, 0), TWO_HARTS),
    (NONE, (2, 0, 0), Answer::Value(0)),
    (ALL, (2, 0, 0), TWO_HARTS),
    (ALL, (8, 0, 3), TWO_HARTS),
    (NONE, (8, 0, 3), EPERM),
    (ALL, (8, 1, 3), EINVAL),
    (ALL, (128, 0, 3), TWO_RESTARTS),
    (ALL, (128, 1, 3), ONE_RESTART),
    (ALL, (128, 1, -1), TWO_RESTARTS),
    (ALL, (128, 1, 1), Answer::Value(0)),
    (ALL, (128, 1, 2), Answer::Value(0)),
    (NONE, (128, 1, 3), EPERM),
    (ALL, (512, 0, 0), Answer::Value(276)),
];

#[test]
fn barriers_among_four_harts(rt: HostRuntime) {
    for (old, (cmd, flags, cpu), expected) in &AMONG_FOUR {
        let mut regs = *old;
        let answer = command(&mut regs, *cmd, *flags, *cpu, Hart(1), 0b1011, 4);
        assert!(rt; answer == *expected, "{cmd} {flags} {cpu}");
        assert!(rt; regs == *old, "{cmd} {flags} {cpu}");
    }
}
