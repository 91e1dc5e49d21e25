//! Why an instruction makes a fault.

/// Why an instruction makes a fault.
#[derive(Clone, Copy, Drop)]
pub enum FaultWhy {
    /// The pc isn't a multiple of 4.
    NotAligned,
    /// The bytes at the pc may not be executed.
    NotExecutable,
    /// The word at the pc is no instruction.
    NoInstruction,
    /// EBREAK.
    Breakpoint,
    /// A jump or a branch to an address that isn't a multiple of 4.
    MisalignedJump,
    /// An atomic access whose address isn't a multiple of its size.
    MisalignedAccess,
    /// A byte of the access can't be read.
    NotReadable,
    /// A byte of the access can't be written.
    NotWritable,
}
