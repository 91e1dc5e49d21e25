//! What a block works with.

/// The registers that a block works with, and where its descriptor stands.
///
/// The three registers are from 1 to 31, differ, and are none of 5, 6, 7 and 28 to 31, which a block may
/// change.
#[derive(Clone, Copy, Drop)]
pub struct Slots {
    /// The register that holds the address of the thread's area (`struct rseq`).
    pub area: u8,
    /// The register that holds the address of the data of processor 0.
    pub cells: u8,
    /// The register that holds the value that goes in or comes out.
    pub value: u8,
    /// The address of the block's descriptor (`struct rseq_cs`), below 0x7FFFF800.
    pub table: u64,
}
