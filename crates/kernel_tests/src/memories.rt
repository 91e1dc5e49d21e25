//! A memory in which an area names a sequence. Worked rows change a word of it.

use mach_types::{Area, FlatMemory, UserMem};

/// The signature that librseq has on RISC-V.
pub const SIGNATURE: u32 = 0xF140_1073;

/// The area. It names 12 bytes from 0x400000 on, with the abort handler at 0x1050.
pub const AREA: Area = Area {
    at: 0x1000,
    sig: SIGNATURE,
};

/// Where `rseq_cs` of the area stands.
pub const POINTER: u64 = 0x1008;

/// Where the descriptor stands: its version, and in the upper half of the word its flags.
pub const DESCRIPTOR: u64 = 0x1020;

/// Where `start_ip`, `post_commit_offset` and `abort_ip` of the descriptor stand.
pub const START: u64 = 0x1028;

pub const LENGTH: u64 = 0x1030;

pub const ABORT: u64 = 0x1038;

/// Where the word stands whose upper half is the signature before the abort handler.
pub const BEFORE_ABORT: u64 = 0x1048;

/// Bytes that nobody looks at.
pub const UNUSED: u64 = 0x1070;

/// Stores 8 bytes.
pub fn put(memory: &mut FlatMemory, at: u64, value: u64) {
    let _written = memory.set(at, 8, value);
}

/// A memory in which the area names a good sequence.
pub fn good_memory() -> FlatMemory {
    let mut memory = FlatMemory::new(1024);
    put(&mut memory, POINTER, DESCRIPTOR);
    put(&mut memory, START, 0x40_0000);
    put(&mut memory, LENGTH, 12);
    put(&mut memory, ABORT, 0x1050);
    put(&mut memory, BEFORE_ABORT, 0xF140_1073 << 32);
    memory
}
