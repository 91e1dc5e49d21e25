//! The labels of a guest's code. Those below 16 are of its blocks; those of one guest alone stand behind those
//! of all.

pub(crate) const BASE: u32 = 0;

pub(crate) const SECOND_BASE: u32 = 8;

/// What the first thread does.
pub(crate) const MAIN: u32 = 16;

/// What the other threads do.
pub(crate) const THREAD: u32 = 17;

pub(crate) const REGISTER: u32 = 18;

/// Starts the other threads.
pub(crate) const START_ALL: u32 = 19;

pub(crate) const START_NEXT: u32 = 20;

pub(crate) const ENTER: u32 = 21;

/// Waits until the other threads have ended.
pub(crate) const WAIT_ALL: u32 = 22;

pub(crate) const WAIT_NEXT: u32 = 23;

pub(crate) const WAIT_AGAIN: u32 = 24;

pub(crate) const HAS_ENDED: u32 = 25;

/// Ends the thread.
pub(crate) const STOP: u32 = 26;

/// Prints the sum of the first words of the cells, and ends.
pub(crate) const PRINT_SUM: u32 = 27;

pub(crate) const SUM_NEXT: u32 = 28;

/// Prints a number, and ends.
pub(crate) const PRINT: u32 = 29;

pub(crate) const PRINT_NEXT: u32 = 30;

/// Goes to the processors of a set, which is in the mask; 0 where there is such a processor.
pub(crate) const PIN: u32 = 31;

/// The work of a thread of a guest.
pub(crate) const WORK: u32 = 32;

// Of list; those at which it goes from processor to processor are ring's too.
pub(crate) const PUSH_NEXT: u32 = 33;

pub(crate) const PIN_NEXT: u32 = 34;

pub(crate) const POP_NEXT: u32 = 35;

pub(crate) const IS_EMPTY: u32 = 36;

pub(crate) const ALL_EMPTY: u32 = 37;

// Of pool.
pub(crate) const POOL_NEXT: u32 = 33;

pub(crate) const SLOT_NEXT: u32 = 34;

pub(crate) const WAS_EMPTY: u32 = 35;

// Of dekker.
pub(crate) const ROUND: u32 = 32;

pub(crate) const OTHER_ROUND: u32 = 33;

pub(crate) const MEET: u32 = 34;

pub(crate) const MEET_AGAIN: u32 = 35;

pub(crate) const HAVE_MET: u32 = 36;

pub(crate) const COUNT_NEXT: u32 = 37;

// Of signals.
pub(crate) const BEHIND_HANDLER: u32 = 32;

pub(crate) const SEND_NEXT: u32 = 33;

pub(crate) const ADD_NEXT: u32 = 34;

// Of migrate.
pub(crate) const MOVE_NEXT: u32 = 32;

pub(crate) const HAS_MOVED: u32 = 33;

// Of ring.
pub(crate) const GET_NEXT: u32 = 33;

pub(crate) const PUT_NEXT: u32 = 35;

pub(crate) const WAS_PUT: u32 = 36;

/// Gets four words, and adds them up; the value is 0 where there were fewer.
pub(crate) const GET: u32 = 38;

pub(crate) const GOT_NONE: u32 = 39;

// Of urcu.
pub(crate) const UPDATE_NEXT: u32 = 33;

pub(crate) const READ_NEXT: u32 = 34;

pub(crate) const IS_ALIVE: u32 = 35;

/// All labels are below this number.
pub(crate) const LABELS: u32 = 40;
