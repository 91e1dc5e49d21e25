//! Four threads put words into the rings of their processors, and get words where a ring is full.

use crate::labels::{
    ALL_EMPTY, BASE, GET, GET_NEXT, GOT_NONE, MAIN, PIN, PIN_NEXT, PRINT_SUM, PUT_NEXT,
    SECOND_BASE, START_ALL, STOP, THREAD, WAIT_ALL, WAS_PUT, WORK,
};
use crate::layout::{FIRST_TABLE, MORE, SECOND_TABLE, THREAD_SIZE, THREADS};
use crate::registers::{
    A0, BACK, CELLS_AT, MASK, OWN, RA, SIZE, STRIDE, SUM, T0, THREAD_COUNT, VALUE,
};
use crate::steps::{BlockKind, Step, branch, inst, label};
use percpu_lib::Line;
use rv_inst::Inst;

/// The words that are put, from a thread's own bytes on; those that were got; and their sum at its end.
const PUT_WORDS: i64 = 128;

const GOT_WORDS: i64 = 160;

const SUM_AT: i64 = 192;

/// The first thread starts three others, and each puts the words 1, 2, 3 and 4 into the ring of its processor, as
/// often as the size says. Where the ring is full it gets four words, and tries once more. Then the first goes to
/// each processor in turn and gets words until the ring there is empty. It prints the sum of all that were got.
pub(crate) const RING: [Step; 59] = [
    label!(MAIN),
    inst!(Lui rd = CELLS_AT, imm = MORE),
    inst!(Addi rd = THREAD_COUNT, rs1 = 0, imm = 3),
    branch!(Jal rd = RA => START_ALL),
    branch!(Jal rd = RA => WORK),
    branch!(Jal rd = RA => WAIT_ALL),
    inst!(Addi rd = MASK, rs1 = 0, imm = 1),
    label!(PIN_NEXT),
    branch!(Jal rd = RA => PIN),
    branch!(Bne rs1 = A0, rs2 = 0 => ALL_EMPTY),
    label!(GET_NEXT),
    branch!(Jal rd = BACK => GET),
    branch!(Bne rs1 = VALUE, rs2 = 0 => GET_NEXT),
    inst!(Slli rd = MASK, rs1 = MASK, shamt = 1),
    branch!(Jal rd = 0 => PIN_NEXT),
    label!(ALL_EMPTY),
    inst!(Sd rs1 = OWN, rs2 = SUM, imm = SUM_AT),
    inst!(Lui rd = CELLS_AT, imm = THREADS),
    inst!(Addi rd = CELLS_AT, rs1 = CELLS_AT, imm = SUM_AT),
    inst!(Addi rd = STRIDE, rs1 = 0, imm = THREAD_SIZE),
    branch!(Jal rd = 0 => PRINT_SUM),
    label!(THREAD),
    branch!(Jal rd = RA => WORK),
    inst!(Sd rs1 = OWN, rs2 = SUM, imm = SUM_AT),
    branch!(Jal rd = 0 => STOP),
    label!(WORK),
    inst!(Addi rd = SUM, rs1 = 0, imm = 0),
    inst!(Addi rd = T0, rs1 = 0, imm = 1),
    inst!(Sd rs1 = OWN, rs2 = T0, imm = PUT_WORDS),
    inst!(Addi rd = T0, rs1 = 0, imm = 2),
    inst!(Sd rs1 = OWN, rs2 = T0, imm = PUT_WORDS + 8),
    inst!(Addi rd = T0, rs1 = 0, imm = 3),
    inst!(Sd rs1 = OWN, rs2 = T0, imm = PUT_WORDS + 16),
    inst!(Addi rd = T0, rs1 = 0, imm = 4),
    inst!(Sd rs1 = OWN, rs2 = T0, imm = PUT_WORDS + 24),
    label!(PUT_NEXT),
    inst!(Addi rd = VALUE, rs1 = OWN, imm = PUT_WORDS),
    Step::Block(BlockKind::RingPut, BASE, FIRST_TABLE),
    branch!(Bne rs1 = VALUE, rs2 = 0 => WAS_PUT),
    branch!(Jal rd = BACK => GET),
    branch!(Jal rd = 0 => PUT_NEXT),
    label!(WAS_PUT),
    inst!(Addi rd = SIZE, rs1 = SIZE, imm = -1),
    branch!(Bne rs1 = SIZE, rs2 = 0 => PUT_NEXT),
    inst!(Jalr rd = 0, rs1 = RA, imm = 0),
    label!(GET),
    inst!(Addi rd = VALUE, rs1 = OWN, imm = GOT_WORDS),
    Step::Block(BlockKind::RingGet, SECOND_BASE, SECOND_TABLE),
    branch!(Beq rs1 = VALUE, rs2 = 0 => GOT_NONE),
    inst!(Ld rd = T0, rs1 = VALUE, imm = 0),
    inst!(Add rd = SUM, rs1 = SUM, rs2 = T0),
    inst!(Ld rd = T0, rs1 = VALUE, imm = 8),
    inst!(Add rd = SUM, rs1 = SUM, rs2 = T0),
    inst!(Ld rd = T0, rs1 = VALUE, imm = 16),
    inst!(Add rd = SUM, rs1 = SUM, rs2 = T0),
    inst!(Ld rd = T0, rs1 = VALUE, imm = 24),
    inst!(Add rd = SUM, rs1 = SUM, rs2 = T0),
    label!(GOT_NONE),
    inst!(Jalr rd = 0, rs1 = BACK, imm = 0),
];
