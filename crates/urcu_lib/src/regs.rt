//! What the blocks work with.

/// The registers of a reader's blocks: from 1 to 31, and different.
#[derive(Clone, Copy, Drop)]
pub struct ReadRegs {
    /// The register that holds the address of the grace counter.
    pub gp: u8,
    /// The register that holds the address of the reader's slot.
    pub slot: u8,
    /// The register that lock may change.
    pub scratch: u8,
}

/// The registers of a sync block: from 1 to 31, different, and none of 5, 6, 7, 10, 11, 12 and 17, which the block
/// may change.
#[derive(Clone, Copy, Drop)]
pub struct SyncRegs {
    /// The register that holds the address of the grace counter.
    pub gp: u8,
    /// The register that holds the address of slot 0; slot i stands 64 * i bytes behind it.
    pub slots: u8,
}
