//! The registers of a guest's code. Those of one guest alone stand behind those of all.

pub(crate) const RA: u8 = 1;

/// A thread's own bytes.
pub(crate) const OWN: u8 = 4;

pub(crate) const T0: u8 = 5;

pub(crate) const T1: u8 = 6;

/// The area of a block.
pub(crate) const AREA: u8 = 8;

/// The cells of a block.
pub(crate) const CELLS_AT: u8 = 9;

pub(crate) const A0: u8 = 10;

pub(crate) const A1: u8 = 11;

pub(crate) const A2: u8 = 12;

pub(crate) const A3: u8 = 13;

pub(crate) const A4: u8 = 14;

/// The own bytes of another thread, or the cell of a processor.
pub(crate) const OTHER: u8 = 15;

/// The number of a call.
pub(crate) const A7: u8 = 17;

/// The value of a block; 1 as the guest begins.
pub(crate) const VALUE: u8 = 18;

/// The size for which the guest was made.
pub(crate) const SIZE: u8 = 19;

/// How many threads there are beside the first.
pub(crate) const THREAD_COUNT: u8 = 20;

/// How many are left.
pub(crate) const LEFT: u8 = 21;

/// From the cell of a processor to the next.
pub(crate) const STRIDE: u8 = 23;

/// A set of processors.
pub(crate) const MASK: u8 = 24;

// Of list.

/// How many nodes were popped.
pub(crate) const POPPED: u8 = 25;

// Of pool.

/// Where a pool is filled.
pub(crate) const FILLED: u8 = 7;

// Of dekker.

/// The bytes of a round, 32 each: the flag of the first thread, that of the other, and what each has read.
pub(crate) const ROUND_AT: u8 = 24;

/// How many rounds a thread has begun.
pub(crate) const BEGUN: u8 = 25;

/// Where a thread says how many rounds it has begun, and where the other does.
pub(crate) const OWN_BEGUN: u8 = 26;

pub(crate) const OTHER_BEGUN: u8 = 27;

// Of signals.

/// The number of the other thread.
pub(crate) const SECOND: u8 = 25;

// Of migrate.

/// How many adds are left to a thread.
pub(crate) const ADDS_LEFT: u8 = 25;

// Of ring.

/// Where to go on behind `GET`.
pub(crate) const BACK: u8 = 22;

/// The sum of the words that a thread has got.
pub(crate) const SUM: u8 = 25;

// Of urcu.

/// The node that the pointer leads to; of a reader, how many zeros it has read.
pub(crate) const NODE: u8 = 22;

/// The other node; of a reader, what lock loads.
pub(crate) const SCRATCH: u8 = 24;

/// A reader's slot.
pub(crate) const SLOT: u8 = 25;

/// The grace counter.
pub(crate) const GP: u8 = 26;

/// The slot of the first reader: the cell of processor 1.
pub(crate) const SLOTS: u8 = 27;

/// Two nodes, and behind them the pointer.
pub(crate) const NODES: u8 = 28;
