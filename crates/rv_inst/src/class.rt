//! The class of an instruction: what it asks of its hart and of memory before it is executed.

/// Bytes of memory that an instruction reads or writes.
#[derive(Clone, Copy, Drop)]
pub struct Access {
    /// The address of the first byte.
    pub at: u64,
    /// How many bytes: 1, 2, 4 or 8.
    pub size: u8,
    /// Whether they must be writable, as those of a store, an AMO and an SC; else they must be readable.
    pub is_write: bool,
    /// Whether the address must be a multiple of the size, as that of an AMO, an LR and an SC.
    pub must_align: bool,
    /// Whether it is made only where the address is reserved, as that of an SC.
    pub needs_reservation: bool,
}

/// What an instruction asks of its hart and of memory.
#[derive(Clone, Copy, Drop)]
pub struct Asks {
    /// The bytes that it reads or writes; None where it touches no memory.
    pub access: Option<Access>,
    /// Whether it may be executed only where no store of its hart waits.
    pub wants_empty: bool,
    /// Whether it is a plain store, which waits in the buffer of its hart.
    pub is_plain_store: bool,
    /// Whether it is a system call.
    pub is_call: bool,
    /// Whether it sets a register and the pc, and does nothing else.
    pub sets_register: bool,
    /// The signal that it raises whatever memory is, as Linux numbers it (signal(7)).
    pub fault: Option<u8>,
}
