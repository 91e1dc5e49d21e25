//! System calls.

/// A system call (Linux for RISC-V).
#[derive(Clone, Copy, Drop)]
pub struct SystemCall {
    /// Its number, which stands in a7.
    pub number: u64,
    /// What stands in a0 to a5. Which of them are arguments is the call's matter.
    pub arguments: [u64; 6],
}
