//! Tests of `chooser`: what harts do next, by what is seen of them and by the words of their generators. The
//! words were computed apart from this program, by the algorithms of the generators' authors.

use chooser::{Chooser, Pick};
use mach_types::{Choice, Hart, Sight, Tid};

/// An idle hart, and no thread that could run there.
const IDLE: Sight = Sight {
    idle: true,
    first_ready: None,
    in_barrier: false,
    all_taken: false,
    requested: false,
    stores: 0,
    deliverable: false,
    exec_enabled: false,
    local: false,
    ran: 0,
    credit: 0,
};

/// An idle hart on which a thread could run.
const READY: Sight = Sight {
    first_ready: Some(Tid(7)),
    ..IDLE
};

/// A thread that waits in a barrier.
const WAITING: Sight = Sight {
    idle: false,
    in_barrier: true,
    ..IDLE
};

/// A thread that has executed 16 instructions and may go on, while another one could run there.
const RUNNING: Sight = Sight {
    idle: false,
    first_ready: Some(Tid(7)),
    exec_enabled: true,
    ran: 16,
    ..IDLE
};

/// The same thread after a store, which waits.
const STORING: Sight = Sight {
    stores: 1,
    ..RUNNING
};

/// The same thread, which may not go on.
const HELD_UP: Sight = Sight {
    exec_enabled: false,
    ..RUNNING
};

/// The same thread, whose next instruction touches registers alone.
const LOCAL: Sight = Sight {
    local: true,
    ..RUNNING
};

/// An event, and so much credit for those that follow.
macro_rules! picked {
    ($choice:expr, $credit:expr) => {
        Pick { choice: $choice, credit: $credit }
    };
}

const RUN: Pick = picked!(Choice::Run(Tid(7)), 0);

const PREEMPT: Pick = picked!(Choice::Preempt, 0);

const DRAIN: Pick = picked!(Choice::Drain, 0);

const SIGNAL: Pick = picked!(Choice::Signal, 0);

const TAKE: Pick = picked!(Choice::Take, 0);

const DONE: Pick = picked!(Choice::Done, 0);

const EXEC: Pick = picked!(Choice::Exec, 0);

/// An instruction, and so much credit.
macro_rules! executed {
    ($credit:expr) => {
        picked!(Choice::Exec, $credit)
    };
}

/// The number of the row, what is seen of hart 0, and what it does next, if anything.
type Row = (u8, Sight, Option<Pick>);

/// In the last row the first word of the generator is still to come.
const NO_WORD: [Row; 25] = [
    (0, IDLE, None),
    (
        1,
        Sight {
            local: true,
            deliverable: true,
            stores: 1,
            ran: 16,
            credit: 1,
            ..IDLE
        },
        None,
    ),
    (2, READY, Some(RUN)),
    (
        3,
        Sight {
            requested: true,
            ..IDLE
        },
        Some(TAKE),
    ),
    (
        4,
        Sight {
            requested: true,
            ..READY
        },
        Some(TAKE),
    ),
    (
        5,
        Sight {
            all_taken: true,
            ..IDLE
        },
        None,
    ),
    (6, WAITING, None),
    (
        7,
        Sight {
            local: true,
            first_ready: Some(Tid(7)),
            deliverable: true,
            credit: 1,
            ..WAITING
        },
        None,
    ),
    (
        8,
        Sight {
            all_taken: true,
            ..WAITING
        },
        Some(DONE),
    ),
    (
        9,
        Sight {
            requested: true,
            ..WAITING
        },
        Some(TAKE),
    ),
    (
        10,
        Sight {
            requested: true,
            all_taken: true,
            ..WAITING
        },
        Some(TAKE),
    ),
    (11, Sight { credit: 1, ..LOCAL }, Some(EXEC)),
    (12, Sight { credit: 7, ..LOCAL }, Some(executed!(6))),
    (
        13,
        Sight {
            credit: 255,
            ..LOCAL
        },
        Some(executed!(254)),
    ),
    (
        14,
        Sight {
            requested: true,
            deliverable: true,
            stores: 8,
            credit: 1,
            ..LOCAL
        },
        Some(EXEC),
    ),
    (
        15,
        Sight {
            requested: true,
            ..LOCAL
        },
        Some(TAKE),
    ),
    (
        16,
        Sight {
            requested: true,
            credit: 1,
            ..RUNNING
        },
        Some(TAKE),
    ),
    (
        17,
        Sight {
            requested: true,
            ..STORING
        },
        Some(DRAIN),
    ),
    (
        18,
        Sight {
            requested: true,
            deliverable: true,
            ..HELD_UP
        },
        Some(TAKE),
    ),
    (
        19,
        Sight {
            deliverable: true,
            ..RUNNING
        },
        Some(SIGNAL),
    ),
    (
        20,
        Sight {
            deliverable: true,
            ..STORING
        },
        Some(DRAIN),
    ),
    (
        21,
        Sight {
            deliverable: true,
            ..HELD_UP
        },
        Some(SIGNAL),
    ),
    (
        22,
        Sight {
            stores: 1,
            ..HELD_UP
        },
        Some(DRAIN),
    ),
    (23, HELD_UP, None),
    (24, RUNNING, Some(executed!(1))),
];

#[test]
fn harts_that_draw_no_word(rt: HostRuntime) {
    let mut chooser = Chooser::new(1);
    for (row, sight, expected) in &NO_WORD {
        let next = chooser.next(Hart(0), sight);
        assert!(rt; next == *expected, "row {row}");
    }
}

/// What is seen of hart 0, the low bits of the first word that it draws, a seed that gives such a word, and
/// what it does next.
type ByWord = (Sight, u64, u64, Pick);

const BY_WORD: [ByWord; 19] = [
    (RUNNING, 0, 185, PREEMPT),
    (RUNNING, 8, 28, PREEMPT),
    (RUNNING, 16 * 5, 88, PREEMPT),
    (Sight { ran: 17, ..RUNNING }, 0, 185, PREEMPT),
    (Sight { ran: 15, ..RUNNING }, 16 * 5, 88, executed!(5)),
    (
        Sight {
            first_ready: None,
            ..RUNNING
        },
        16 * 5,
        88,
        executed!(5),
    ),
    (STORING, 16 * 5, 88, executed!(5)),
    (RUNNING, 4, 130, EXEC),
    (RUNNING, 12, 250, EXEC),
    (RUNNING, 1, 291, EXEC),
    (STORING, 1, 291, DRAIN),
    (STORING, 5, 979, DRAIN),
    (
        Sight {
            ran: 0,
            stores: 8,
            ..RUNNING
        },
        16 * 5 + 13,
        108,
        DRAIN,
    ),
    (STORING, 2, 80, EXEC),
    (STORING, 15, 1233, EXEC),
    (STORING, 16 * 1 + 7, 72, executed!(1)),
    (RUNNING, 16 * 7 + 15, 1409, executed!(7)),
    (RUNNING, 16 * 8 + 2, 182, EXEC),
    (RUNNING, 0xffff, 13890, executed!(7)),
];

#[test]
fn words_decide(rt: HostRuntime) {
    for (sight, word, seed, expected) in &BY_WORD {
        let next = Chooser::new(*seed).next(Hart(0), sight);
        assert!(rt; next == Some(*expected), "word {word}");
    }
}

/// A seed, a hart, and the first words of its generator.
type Words = (u64, u8, [u64; 3]);

const WORDS: [Words; 5] = [
    (
        1,
        0,
        [
            0xcfc5_d07f_6f03_c29b,
            0xbf42_4132_963f_e08d,
            0x19a3_7d57_57aa_f520,
        ],
    ),
    (
        1,
        1,
        [
            0xc3e6_7584_b5c4_fc2a,
            0x8983_7ec3_9e40_f2c8,
            0xa6bb_0b29_87ac_94cd,
        ],
    ),
    (
        42,
        0,
        [
            0xd076_4d4f_4476_689f,
            0x519e_4174_576f_3791,
            0xfbe0_7cfb_0c24_ed8c,
        ],
    ),
    (
        42,
        1,
        [
            0x2b05_935e_6f17_747d,
            0x9906_60bf_c6a5_df45,
            0xe04e_1719_81a8_90d4,
        ],
    ),
    (
        u64::MAX,
        1,
        [
            0x5317_5d61_490b_23df,
            0x61da_6f3d_c380_d507,
            0x5c0f_df91_ec9a_7bfc,
        ],
    ),
];

/// A thread that may go on, and no other that could run there.
const ALONE: Sight = Sight {
    first_ready: None,
    ..RUNNING
};

/// A thread that neither leaves nor drains shows three bits of each word: its credit. All bits of these words
/// are worked examples of `chooser`.
#[test]
fn first_words(rt: HostRuntime) {
    for (seed, hart, words) in &WORDS {
        assert!(rt; *hart < 8);
        let mut chooser = Chooser::new(*seed);
        for word in words {
            let next = chooser.next(Hart(*hart), &ALONE);
            let credit = (word / 16 % 8) as u8;
            assert!(rt; next == Some(executed!(credit)), "seed {seed}, hart {hart}");
        }
    }
}

/// The number of the row, a hart, what is seen of it, and what it does next.
const BY_HART: [(u8, u8, Sight, Pick); 10] = [
    (0, 0, RUNNING, executed!(1)),
    (1, 1, RUNNING, executed!(2)),
    (2, 1, RUNNING, PREEMPT),
    (3, 0, STORING, DRAIN),
    (4, 1, Sight { credit: 1, ..LOCAL }, EXEC),
    (5, 0, RUNNING, PREEMPT),
    (6, 1, STORING, DRAIN),
    (7, 0, STORING, executed!(5)),
    (8, 1, RUNNING, executed!(7)),
    (9, 7, RUNNING, executed!(3)),
];

/// Modulo 8 the first words of seed 1 are 3, 5, 0 and 6 for hart 0, 2, 0, 5 and 2 for hart 1, and 2 for
/// hart 7.
#[test]
fn harts_draw_words_of_their_own(rt: HostRuntime) {
    let mut chooser = Chooser::new(1);
    for (row, number, sight, expected) in &BY_HART {
        assert!(rt; *number < 8);
        let peeked = chooser.peek(Hart(*number), sight);
        assert!(rt; peeked == Some(*expected), "row {row}");
        let next = chooser.next(Hart(*number), sight);
        assert!(rt; next == Some(*expected), "row {row}");
    }
}
