//! Words of restartable sequences (rseq(2); uapi linux/rseq.h, `struct rseq` and `struct rseq_cs`).

ghost use Rattle.std.specs.Prelude.{◌≡◌};

/// A registered rseq area: its address and the signature that it was registered with (rseq(2)).
#[derive(Clone, Copy, PartialEq, Eq, Drop)]
pub struct Area {
    /// The address of the `struct rseq`.
    pub at: u64,
    /// The word that must stand before an abort handler.
    pub sig: u32,
}

/// The bytes of a `struct rseq` of six fields, to a multiple of which it is aligned: the area of Linux 6.3.
pub const AREA_SIZE: u32 = 32;

/// Where `cpu_id` stands in a `struct rseq`, 4 bytes. Before it, at the area's address, stands
/// `cpu_id_start`.
pub const CPU_ID: u64 = 4;

/// Where `rseq_cs` stands in a `struct rseq`, 8 bytes: the address of a descriptor, or 0.
pub const RSEQ_CS: u64 = 8;

/// Where `flags` stands in a `struct rseq`, 4 bytes.
pub const FLAGS: u64 = 16;

/// Where `node_id` stands in a `struct rseq`, 4 bytes.
pub const NODE_ID: u64 = 20;

/// Where `mm_cid` stands in a `struct rseq`, 4 bytes.
pub const MM_CID: u64 = 24;

/// The bytes of a descriptor, a `struct rseq_cs`.
pub const DESCRIPTOR_SIZE: u64 = 32;

/// The flag of rseq(2) that asks to unregister.
pub const RSEQ_FLAG_UNREGISTER: u32 = 1;

/// A descriptor: the `struct rseq_cs` that an area's `rseq_cs` points to.
#[derive(Clone, Copy, Drop)]
pub struct Descriptor {
    /// `version`, at 0.
    pub version: u32,
    /// `flags`, at 4.
    pub flags: u32,
    /// `start_ip`, at 8: the address of the first instruction of the sequence.
    pub start_ip: u64,
    /// `post_commit_offset`, at 16: how many bytes the sequence has.
    pub post_commit_offset: u64,
    /// `abort_ip`, at 24: where a thread goes on that was interrupted inside.
    pub abort_ip: u64,
}

/// A restartable sequence.
#[derive(Clone, Copy, PartialEq, Eq, Drop)]
pub struct Seq {
    /// The address of its first instruction.
    pub start: u64,
    /// How many bytes it has.
    pub length: u64,
    /// The address of its abort handler.
    pub abort: u64,
}

impl Seq {
    ghost use Rattle.mach_types.specs.Kernel.Areas.{is_inside};

    /// Whether a pc is inside: less than the length past the start, modulo 2^64. The end is outside.
    pub fn is_inside(&self, pc: u64) -> bool
        ensures { result ≡ is_inside self.now pc }
    {
        pc.wrapping_sub(self.start) < self.length
    }
}

/// What is wrong with an area, or with the descriptor that it names.
#[derive(Clone, Copy, PartialEq, Eq, Drop)]
pub enum BadWhy {
    /// `rseq_cs` or `flags` of the area can't be read, or `rseq_cs` can't be written where it must be
    /// cleared.
    AreaBytes,
    /// The pointer is at or past the end of addresses.
    Pointer,
    /// The descriptor can't be read.
    Descriptor,
    /// `version` of the descriptor isn't 0.
    Version,
    /// The start, the end or the abort handler of the sequence is at or past the end of addresses.
    Range,
    /// The abort handler is inside the sequence.
    AbortInside,
    /// The word before the abort handler can't be read, or isn't the signature of the area.
    Signature,
    /// A flag is set, of the area or of the descriptor, while the thread is inside.
    SeqFlags,
}

/// What an area names for a thread at a pc.
#[derive(Clone, Copy, PartialEq, Eq, Drop)]
pub enum Named {
    /// No sequence: the pointer is 0.
    Nothing,
    /// This sequence.
    Good(Seq),
    /// A sequence that can't be used, and why.
    Bad(BadWhy),
}

/// What the interruption of a thread comes to.
#[derive(Clone, Copy, PartialEq, Eq, Drop)]
pub enum Outcome {
    /// Nothing happens: the thread has no area, or its area names nothing.
    Nothing,
    /// The pointer becomes 0, and the thread stays where it is: it was outside.
    Cleared,
    /// The pointer becomes 0, and the thread goes on at this address: it was inside.
    Aborted(u64),
    /// The process is killed.
    Killed(BadWhy),
}
