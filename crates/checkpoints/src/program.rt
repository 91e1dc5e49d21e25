//! What is played.

use elf_load::Image;
use mach_types::Limits;
use process::Code;

/// A program, and the limits within which it runs.
#[derive(Clone, Copy, Drop)]
pub struct Program<'a> {
    /// Its instructions.
    pub code: &'a Code,
    /// Its pages.
    pub image: &'a Image,
    /// The limits.
    pub limits: Limits,
}
