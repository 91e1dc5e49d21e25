//! What is explored.

use crate::exploration::Exploration;
use elf_load::Image;
use mach_types::Limits;
use std::alloc::Global;

/// What is explored, as each host thread sees it.
#[derive(Clone, Copy, Drop)]
pub(crate) struct Task<'a> {
    /// Where memory is taken.
    pub(crate) alloc: Global,
    /// The program.
    pub(crate) image: &'a Image,
    /// The limits of each run.
    pub(crate) limits: Limits,
    /// Which runs are made.
    pub(crate) exploration: &'a Exploration,
}
