//! Four threads take blocks from the pools of their processors and give them back.

use crate::labels::{
    BASE, MAIN, POOL_NEXT, PRINT_SUM, SECOND_BASE, SLOT_NEXT, START_ALL, STOP, THREAD, WAIT_ALL,
    WAS_EMPTY, WORK,
};
use crate::layout::{FIRST_TABLE, MORE, SECOND_TABLE};
use crate::registers::{
    CELLS_AT, FILLED, LEFT, OTHER, RA, SIZE, STRIDE, T0, T1, THREAD_COUNT, VALUE,
};
use crate::steps::{BlockKind, Step, branch, inst, label};
use percpu_lib::Line;
use rv_inst::Inst;

/// The first thread fills eight pools with 64 blocks each, numbered from 1 on, and starts three others. Each
/// takes a block out of the pool of its processor and puts it into that of its processor by then, as often as
/// the size says. Then the sum of the counts is printed.
pub(crate) const POOL: [Step; 35] = [
    label!(MAIN),
    inst!(Lui rd = CELLS_AT, imm = MORE),
    inst!(Lui rd = STRIDE, imm = 8192),
    inst!(Addi rd = T0, rs1 = 0, imm = 0),
    inst!(Addi rd = LEFT, rs1 = 0, imm = 8),
    inst!(Addi rd = OTHER, rs1 = CELLS_AT, imm = 0),
    label!(POOL_NEXT),
    inst!(Addi rd = T1, rs1 = 0, imm = 64),
    inst!(Sd rs1 = OTHER, rs2 = T1, imm = 0),
    inst!(Addi rd = FILLED, rs1 = OTHER, imm = 0),
    label!(SLOT_NEXT),
    inst!(Addi rd = T0, rs1 = T0, imm = 1),
    inst!(Sd rs1 = FILLED, rs2 = T0, imm = 64),
    inst!(Addi rd = FILLED, rs1 = FILLED, imm = 8),
    inst!(Addi rd = T1, rs1 = T1, imm = -1),
    branch!(Bne rs1 = T1, rs2 = 0 => SLOT_NEXT),
    inst!(Add rd = OTHER, rs1 = OTHER, rs2 = STRIDE),
    inst!(Addi rd = LEFT, rs1 = LEFT, imm = -1),
    branch!(Bne rs1 = LEFT, rs2 = 0 => POOL_NEXT),
    inst!(Addi rd = THREAD_COUNT, rs1 = 0, imm = 3),
    branch!(Jal rd = RA => START_ALL),
    branch!(Jal rd = RA => WORK),
    branch!(Jal rd = RA => WAIT_ALL),
    branch!(Jal rd = 0 => PRINT_SUM),
    label!(THREAD),
    branch!(Jal rd = RA => WORK),
    branch!(Jal rd = 0 => STOP),
    label!(WORK),
    Step::Block(BlockKind::Alloc, BASE, FIRST_TABLE),
    branch!(Beq rs1 = VALUE, rs2 = 0 => WAS_EMPTY),
    Step::Block(BlockKind::Free, SECOND_BASE, SECOND_TABLE),
    label!(WAS_EMPTY),
    inst!(Addi rd = SIZE, rs1 = SIZE, imm = -1),
    branch!(Bne rs1 = SIZE, rs2 = 0 => WORK),
    inst!(Jalr rd = 0, rs1 = RA, imm = 0),
];
