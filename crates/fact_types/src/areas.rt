//! The fields of an area (rseq(2)).

/// A field of a `struct rseq` (uapi linux/rseq.h).
#[derive(Clone, Copy, Drop)]
pub enum AreaField {
    /// `cpu_id_start`.
    CpuIdStart,
    /// `cpu_id`.
    CpuId,
    /// `rseq_cs`, the pointer.
    RseqCs,
    /// `flags`.
    Flags,
    /// `node_id`.
    NodeId,
    /// `mm_cid`.
    MmCid,
}
