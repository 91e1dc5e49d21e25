//! Two threads push nodes to the lists of their processors, and one pops them all.

use crate::labels::{
    ALL_EMPTY, BASE, IS_EMPTY, MAIN, PIN, PIN_NEXT, POP_NEXT, PRINT, PUSH_NEXT, SECOND_BASE,
    START_ALL, STOP, THREAD, WAIT_ALL, WORK,
};
use crate::layout::{FIRST_TABLE, MORE, SECOND_TABLE, THREADS};
use crate::registers::{A0, MASK, OWN, POPPED, RA, SIZE, T0, THREAD_COUNT, VALUE};
use crate::steps::{BlockKind, Step, branch, inst, label};
use percpu_lib::Line;
use rv_inst::Inst;

/// The first thread starts another, and each pushes as many nodes of 16 bytes as the size says, from its own
/// place on. Then the first goes to each processor in turn and pops until the list there is empty. It prints
/// how many nodes it has popped.
pub(crate) const LIST: [Step; 36] = [
    label!(MAIN),
    inst!(Addi rd = THREAD_COUNT, rs1 = 0, imm = 1),
    branch!(Jal rd = RA => START_ALL),
    branch!(Jal rd = RA => WORK),
    branch!(Jal rd = RA => WAIT_ALL),
    inst!(Addi rd = MASK, rs1 = 0, imm = 1),
    inst!(Addi rd = POPPED, rs1 = 0, imm = 0),
    label!(PIN_NEXT),
    branch!(Jal rd = RA => PIN),
    branch!(Bne rs1 = A0, rs2 = 0 => ALL_EMPTY),
    label!(POP_NEXT),
    Step::Block(BlockKind::Pop, SECOND_BASE, SECOND_TABLE),
    branch!(Beq rs1 = VALUE, rs2 = 0 => IS_EMPTY),
    inst!(Addi rd = POPPED, rs1 = POPPED, imm = 1),
    branch!(Jal rd = 0 => POP_NEXT),
    label!(IS_EMPTY),
    inst!(Slli rd = MASK, rs1 = MASK, shamt = 1),
    branch!(Jal rd = 0 => PIN_NEXT),
    label!(ALL_EMPTY),
    inst!(Addi rd = A0, rs1 = POPPED, imm = 0),
    branch!(Jal rd = 0 => PRINT),
    label!(THREAD),
    branch!(Jal rd = RA => WORK),
    branch!(Jal rd = 0 => STOP),
    label!(WORK),
    inst!(Lui rd = T0, imm = THREADS),
    inst!(Sub rd = VALUE, rs1 = OWN, rs2 = T0),
    inst!(Slli rd = VALUE, rs1 = VALUE, shamt = 4),
    inst!(Lui rd = T0, imm = MORE),
    inst!(Add rd = VALUE, rs1 = VALUE, rs2 = T0),
    label!(PUSH_NEXT),
    Step::Block(BlockKind::Push, BASE, FIRST_TABLE),
    inst!(Addi rd = VALUE, rs1 = VALUE, imm = 16),
    inst!(Addi rd = SIZE, rs1 = SIZE, imm = -1),
    branch!(Bne rs1 = SIZE, rs2 = 0 => PUSH_NEXT),
    inst!(Jalr rd = 0, rs1 = RA, imm = 0),
];
