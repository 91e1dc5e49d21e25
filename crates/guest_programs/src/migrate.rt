//! Threads that add to counters and go from processor to processor.

use crate::labels::{
    BASE, HAS_MOVED, MAIN, MOVE_NEXT, PIN, PRINT_SUM, START_ALL, STOP, THREAD, WAIT_ALL,
};
use crate::layout::FIRST_TABLE;
use crate::registers::{A0, ADDS_LEFT, AREA, MASK, RA, SIZE, T0, THREAD_COUNT};
use crate::steps::{BlockKind, Step, branch, inst, label};
use percpu_lib::Line;
use rv_inst::Inst;

/// The first thread starts as many others as the size says. Each adds 1 a hundred times, and after each time
/// goes to the next processor, or to the first behind the last. Then the sum of the counters is printed.
pub(crate) const MIGRATE: [Step; 21] = [
    label!(MAIN),
    inst!(Addi rd = THREAD_COUNT, rs1 = SIZE, imm = 0),
    branch!(Jal rd = RA => START_ALL),
    branch!(Jal rd = RA => WAIT_ALL),
    branch!(Jal rd = 0 => PRINT_SUM),
    label!(THREAD),
    inst!(Lw rd = T0, rs1 = AREA, imm = 4),
    inst!(Addi rd = MASK, rs1 = 0, imm = 1),
    inst!(Sll rd = MASK, rs1 = MASK, rs2 = T0),
    inst!(Addi rd = ADDS_LEFT, rs1 = 0, imm = 100),
    label!(MOVE_NEXT),
    Step::Block(BlockKind::Add, BASE, FIRST_TABLE),
    inst!(Slli rd = MASK, rs1 = MASK, shamt = 1),
    branch!(Jal rd = RA => PIN),
    branch!(Beq rs1 = A0, rs2 = 0 => HAS_MOVED),
    inst!(Addi rd = MASK, rs1 = 0, imm = 1),
    branch!(Jal rd = RA => PIN),
    label!(HAS_MOVED),
    inst!(Addi rd = ADDS_LEFT, rs1 = ADDS_LEFT, imm = -1),
    branch!(Bne rs1 = ADDS_LEFT, rs2 = 0 => MOVE_NEXT),
    branch!(Jal rd = 0 => STOP),
];
