//! Where the code and the data of a guest stand in memory.

/// The first word of the code.
pub(crate) const CODE: u64 = 0x10000;

/// The bytes of the code in memory.
pub(crate) const CODE_SIZE: u64 = 0x1000;

/// The first byte of the data: the size.
pub(crate) const DATA: i64 = 0x20000;

/// The grace counter of user-space RCU, which is 1 at first, from the first byte of the data on.
pub(crate) const GRACE: i64 = 8;

/// Where a text that is written ends, from the first byte of the data on.
pub(crate) const TEXT_END: i64 = 0xa0;

/// The descriptors of the blocks.
pub(crate) const FIRST_TABLE: u64 = 0x20020;

pub(crate) const SECOND_TABLE: u64 = 0x20040;

/// The action of a signal, from the first byte of the data on.
pub(crate) const ACTION: i64 = 0xc0;

/// The cells of the processors, of 64 bytes each.
pub(crate) const CELLS: i64 = 0x21000;

/// The threads' own bytes, of 1024 bytes each: the area, then the number, then a set of processors, and at
/// the end the stack.
pub(crate) const THREADS: i64 = 0x30000;

pub(crate) const THREAD_SIZE: i64 = 1024;

/// The number of a thread, which becomes 0 when it has ended, from its own bytes on.
pub(crate) const NUMBER: i64 = 64;

/// A set of processors, from a thread's own bytes on.
pub(crate) const SET: i64 = 72;

/// What only some guests have: pools, nodes or rounds.
pub(crate) const MORE: i64 = 0x40000;

/// The bytes of the data in memory.
pub(crate) const DATA_SIZE: u64 = 0x30000;
