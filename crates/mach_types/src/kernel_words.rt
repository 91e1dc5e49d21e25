//! Words of the kernel's interface.

/// How many bytes the console holds (own).
pub const CONSOLE_ROOM: u64 = 65_536;

/// How many threads may live at a time (own).
pub const MOST_THREADS: u8 = 64;

/// A page can be read (mmap(2), mprotect(2)).
pub const PROT_READ: u8 = 1;

/// A page can be written.
pub const PROT_WRITE: u8 = 2;

/// A page can be executed.
pub const PROT_EXEC: u8 = 4;

/// The greatest prot, which has these three bits: a greater one is refused (own).
pub const MOST_PROT: u8 = 7;
