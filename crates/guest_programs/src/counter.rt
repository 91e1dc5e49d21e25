//! Four threads add to the counters of their processors.

use crate::labels::{BASE, MAIN, PRINT_SUM, START_ALL, STOP, THREAD, WAIT_ALL, WORK};
use crate::layout::FIRST_TABLE;
use crate::registers::{RA, SIZE, THREAD_COUNT};
use crate::steps::{BlockKind, Step, branch, inst, label};
use percpu_lib::Line;
use rv_inst::Inst;

/// The first thread starts three others, and each adds 1 as often as the size says. Then the sum of the
/// counters is printed.
pub(crate) const COUNTER: [Step; 14] = [
    label!(MAIN),
    inst!(Addi rd = THREAD_COUNT, rs1 = 0, imm = 3),
    branch!(Jal rd = RA => START_ALL),
    branch!(Jal rd = RA => WORK),
    branch!(Jal rd = RA => WAIT_ALL),
    branch!(Jal rd = 0 => PRINT_SUM),
    label!(THREAD),
    branch!(Jal rd = RA => WORK),
    branch!(Jal rd = 0 => STOP),
    label!(WORK),
    Step::Block(BlockKind::Add, BASE, FIRST_TABLE),
    inst!(Addi rd = SIZE, rs1 = SIZE, imm = -1),
    branch!(Bne rs1 = SIZE, rs2 = 0 => WORK),
    inst!(Jalr rd = 0, rs1 = RA, imm = 0),
];
