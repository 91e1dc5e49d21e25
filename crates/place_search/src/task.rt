//! What is searched.

use elf_load::Image;
use mach_types::Limits;
use search_reductions::Signals;
use std::alloc::Global;

/// What is searched, and how far.
#[derive(Clone, Copy, Drop)]
pub(crate) struct Task<'a> {
    /// Where memory is taken.
    pub(crate) alloc: Global,
    /// The program.
    pub(crate) image: &'a Image,
    /// The limits of each run.
    pub(crate) limits: Limits,
    /// How many places are visited at most.
    pub(crate) most: u32,
    /// Of which runs is spoken.
    pub(crate) signals: Signals,
    /// Whether threads settle: their local steps are made at once, and no place before these is visited.
    pub(crate) settle: bool,
    /// How many preemptions a run may have; None where it may have any number.
    pub(crate) preemptions: Option<u8>,
}
