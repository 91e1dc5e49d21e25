//! The gate of the program.

use crate::traits::Gate;
use mach_types::Hart;

/// A gate that lets every worker pass at once.
#[derive(Clone, Copy, Default)]
pub struct OpenGate;

impl Gate for OpenGate {
    fn pass(&self, _hart: Hart) {}
}
