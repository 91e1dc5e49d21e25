//! Stretches: instructions of a hart that touch registers alone, worked without the machine and appended to its log later.

ghost use Rattle.std.specs.Prelude.{◌≡◌};
ghost use Rattle.block_model.specs.Stretches.{goes_on, gone_on, longest, worked};
ghost use Rattle.machine_core.specs.Stretches.{stretch_of};

use arrayvec::ArrayVec;
use mach_types::{Hart, Regs};
use process::{Code, effect_at};
use rv_inst::Effect;

/// How many instructions a stretch has at most: the highest credit of a hart.
const LONGEST: usize = 7;

/// A stretch of a hart's work: what its thread's registers are after so many instructions that touch nothing else.
#[derive(Drop)]
pub struct Stretch {
    /// The hart.
    pub hart: Hart,
    /// How many events the hart had made when the stretch was lent.
    pub events: u32,
    /// The registers of the hart's thread.
    pub file: Regs,
    /// The address of its next instruction.
    pub pc: u64,
    /// How many more instructions may follow.
    pub credit: u8,
    /// The addresses of the instructions so far, in order.
    pub pcs: ArrayVec<u64, 7>,
}

/// Executes the next instruction of a stretch, where it goes on; answers whether it does.
fn go_on(code: &Code, stretch: &mut Stretch) -> bool
    ensures answer { result ≡ goes_on code.now (stretch_of stretch.old) }
    ensures stretch { stretch_of stretch.new ≡ gone_on code.now (stretch_of stretch.old) }
{
    if stretch.credit == 0 || stretch.pcs.len() >= LONGEST {
        return false;
    }
    match effect_at(code, &stretch.file, stretch.pc) {
        Some(Effect::Next { rd, value, pc }) => {
            stretch.pcs.push(stretch.pc);
            stretch.file.set(rd, value);
            stretch.pc = pc;
            stretch.credit -= 1;
            true
        }
        _ => false,
    }
}

/// Works on a stretch: it executes instructions while there is credit, `pcs` has room, and the next one sets a register and the
/// pc alone and doesn't fault. At most 7 instructions are executed.
pub fn work(code: &Code, stretch: &mut Stretch)
    ensures { stretch_of stretch.new ≡ worked longest code.now (stretch_of stretch.old) }
{
    for _ in 0..LONGEST {
        if !go_on(code, stretch) {
            return;
        }
    }
}
