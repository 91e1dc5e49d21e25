//! The integer registers (RISC-V Unprivileged ISA, RV64I: x0 to x31).

ghost use Rattle.std.specs.Prelude.{◌≡◌, slice_index, slice_set};
ghost use Rattle.mach_types.specs.Registers.{register, with_register, no_registers};

/// The integer registers x0 to x31. x0 is 0.
#[derive(Clone, Copy, PartialEq, Eq, Drop)]
pub struct Regs {
    /// Register n stands at index n.
    pub x: [u64; 32],
}

/// Puts a value where the slice has that index.
fn put(cells: &mut [u64], index: usize, value: u64)
    ensures { cells.new ≡ slice_set cells.old index value }
{
    if index < cells.len() {
        cells[index] = value;
    }
}

/// What stands at an index, or 0 past the end.
fn at(cells: &[u64], index: usize) -> u64
    ensures { result ≡ slice_index cells.now index }
{
    if index < cells.len() { cells[index] } else { 0 }
}

impl Regs {
    /// All registers 0.
    pub fn new() -> Regs
        ensures { result ≡ no_registers }
    {
        Regs { x: [0; 32] }
    }

    /// Register `number`; x0, and a number past 31, reads 0.
    pub fn get(&self, number: u8) -> u64
        ensures { result ≡ register self.now number }
    {
        if number == 0 {
            0
        } else {
            at(&self.x, number as usize)
        }
    }

    /// Writes register `number`; a write to x0, or past 31, changes nothing.
    pub fn set(&mut self, number: u8, value: u64)
        ensures { self.new ≡ with_register self.old number value }
    {
        if number != 0 {
            put(&mut self.x, number as usize, value);
        }
    }
}
