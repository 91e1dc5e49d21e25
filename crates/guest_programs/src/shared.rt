//! What all guests have: the beginning, threads, processors, sums and output.

use crate::calls::{CLONE, EXIT, EXIT_GROUP, FUTEX, RSEQ, SCHED_SETAFFINITY, WRITE};
use crate::labels::{
    ENTER, HAS_ENDED, MAIN, PIN, PRINT, PRINT_NEXT, PRINT_SUM, REGISTER, START_ALL, START_NEXT,
    STOP, SUM_NEXT, THREAD, WAIT_AGAIN, WAIT_ALL, WAIT_NEXT,
};
use crate::layout::{CELLS, DATA, NUMBER, SET, TEXT_END, THREAD_SIZE, THREADS};
use crate::registers::{
    A0, A1, A2, A3, A4, A7, AREA, CELLS_AT, LEFT, MASK, OTHER, OWN, RA, SIZE, STRIDE, T0, T1,
    THREAD_COUNT, VALUE,
};
use crate::steps::{Step, branch, ecall, inst, label};
use percpu_lib::Line;
use rv_inst::Inst;

/// The beginning, and the registration of an area (rseq(2)), with librseq's signature.
pub(crate) const BEGINNING: [Step; 18] = [
    inst!(Lui rd = OWN, imm = THREADS),
    branch!(Jal rd = RA => REGISTER),
    inst!(Lui rd = CELLS_AT, imm = CELLS),
    inst!(Lui rd = T0, imm = DATA),
    inst!(Ld rd = SIZE, rs1 = T0, imm = 0),
    inst!(Addi rd = VALUE, rs1 = 0, imm = 1),
    inst!(Addi rd = STRIDE, rs1 = 0, imm = 64),
    branch!(Jal rd = 0 => MAIN),
    label!(REGISTER),
    inst!(Addi rd = AREA, rs1 = OWN, imm = 0),
    inst!(Addi rd = A0, rs1 = OWN, imm = 0),
    inst!(Addi rd = A1, rs1 = 0, imm = 32),
    inst!(Addi rd = A2, rs1 = 0, imm = 0),
    inst!(Lui rd = A3, imm = -0xebff000),
    inst!(Addi rd = A3, rs1 = A3, imm = 0x73),
    inst!(Addi rd = A7, rs1 = 0, imm = RSEQ),
    ecall!(),
    inst!(Jalr rd = 0, rs1 = RA, imm = 0),
];

/// Starts the other threads, each with its own bytes (clone(2)), and lets them register their areas.
pub(crate) const STARTING: [Step; 20] = [
    label!(START_ALL),
    inst!(Addi rd = LEFT, rs1 = THREAD_COUNT, imm = 0),
    inst!(Addi rd = OTHER, rs1 = OWN, imm = 0),
    label!(START_NEXT),
    inst!(Addi rd = OTHER, rs1 = OTHER, imm = THREAD_SIZE),
    inst!(Lui rd = A0, imm = 0x391000),
    inst!(Addi rd = A0, rs1 = A0, imm = -0x100),
    inst!(Addi rd = A1, rs1 = OTHER, imm = THREAD_SIZE),
    inst!(Addi rd = A2, rs1 = OTHER, imm = NUMBER),
    inst!(Addi rd = A3, rs1 = OTHER, imm = 0),
    inst!(Addi rd = A4, rs1 = OTHER, imm = NUMBER),
    inst!(Addi rd = A7, rs1 = 0, imm = CLONE),
    ecall!(),
    branch!(Beq rs1 = A0, rs2 = 0 => ENTER),
    inst!(Addi rd = LEFT, rs1 = LEFT, imm = -1),
    branch!(Bne rs1 = LEFT, rs2 = 0 => START_NEXT),
    inst!(Jalr rd = 0, rs1 = RA, imm = 0),
    label!(ENTER),
    branch!(Jal rd = RA => REGISTER),
    branch!(Jal rd = 0 => THREAD),
];

/// Waits until the other threads have ended: the kernel clears their numbers, and wakes who sleeps there
/// (futex(2)).
pub(crate) const ENDING: [Step; 22] = [
    label!(WAIT_ALL),
    inst!(Addi rd = LEFT, rs1 = THREAD_COUNT, imm = 0),
    inst!(Addi rd = OTHER, rs1 = OWN, imm = 0),
    label!(WAIT_NEXT),
    inst!(Addi rd = OTHER, rs1 = OTHER, imm = THREAD_SIZE),
    label!(WAIT_AGAIN),
    inst!(Lw rd = A2, rs1 = OTHER, imm = NUMBER),
    branch!(Beq rs1 = A2, rs2 = 0 => HAS_ENDED),
    inst!(Addi rd = A0, rs1 = OTHER, imm = NUMBER),
    inst!(Addi rd = A1, rs1 = 0, imm = 0),
    inst!(Addi rd = A3, rs1 = 0, imm = 0),
    inst!(Addi rd = A7, rs1 = 0, imm = FUTEX),
    ecall!(),
    branch!(Jal rd = 0 => WAIT_AGAIN),
    label!(HAS_ENDED),
    inst!(Addi rd = LEFT, rs1 = LEFT, imm = -1),
    branch!(Bne rs1 = LEFT, rs2 = 0 => WAIT_NEXT),
    inst!(Jalr rd = 0, rs1 = RA, imm = 0),
    label!(STOP),
    inst!(Addi rd = A0, rs1 = 0, imm = 0),
    inst!(Addi rd = A7, rs1 = 0, imm = EXIT),
    ecall!(),
];

/// Prints a sum, or a number, in decimal with a newline, and ends the process.
pub(crate) const PRINTING: [Step; 30] = [
    label!(PRINT_SUM),
    inst!(Addi rd = A0, rs1 = 0, imm = 0),
    inst!(Addi rd = LEFT, rs1 = 0, imm = 8),
    inst!(Addi rd = OTHER, rs1 = CELLS_AT, imm = 0),
    label!(SUM_NEXT),
    inst!(Ld rd = T0, rs1 = OTHER, imm = 0),
    inst!(Add rd = A0, rs1 = A0, rs2 = T0),
    inst!(Add rd = OTHER, rs1 = OTHER, rs2 = STRIDE),
    inst!(Addi rd = LEFT, rs1 = LEFT, imm = -1),
    branch!(Bne rs1 = LEFT, rs2 = 0 => SUM_NEXT),
    label!(PRINT),
    inst!(Lui rd = A2, imm = DATA),
    inst!(Addi rd = A2, rs1 = A2, imm = TEXT_END),
    inst!(Addi rd = T0, rs1 = 0, imm = 10),
    inst!(Addi rd = A1, rs1 = A2, imm = -1),
    inst!(Sb rs1 = A1, rs2 = T0, imm = 0),
    label!(PRINT_NEXT),
    inst!(Remu rd = T1, rs1 = A0, rs2 = T0),
    inst!(Divu rd = A0, rs1 = A0, rs2 = T0),
    inst!(Addi rd = T1, rs1 = T1, imm = 48),
    inst!(Addi rd = A1, rs1 = A1, imm = -1),
    inst!(Sb rs1 = A1, rs2 = T1, imm = 0),
    branch!(Bne rs1 = A0, rs2 = 0 => PRINT_NEXT),
    inst!(Sub rd = A2, rs1 = A2, rs2 = A1),
    inst!(Addi rd = A0, rs1 = 0, imm = 1),
    inst!(Addi rd = A7, rs1 = 0, imm = WRITE),
    ecall!(),
    inst!(Addi rd = A0, rs1 = 0, imm = 0),
    inst!(Addi rd = A7, rs1 = 0, imm = EXIT_GROUP),
    ecall!(),
];

/// Goes to a processor of a set (sched_setaffinity(2)), and gives 0 where there is one.
pub(crate) const PINNING: [Step; 8] = [
    label!(PIN),
    inst!(Sd rs1 = OWN, rs2 = MASK, imm = SET),
    inst!(Addi rd = A0, rs1 = 0, imm = 0),
    inst!(Addi rd = A1, rs1 = 0, imm = 8),
    inst!(Addi rd = A2, rs1 = OWN, imm = SET),
    inst!(Addi rd = A7, rs1 = 0, imm = SCHED_SETAFFINITY),
    ecall!(),
    inst!(Jalr rd = 0, rs1 = RA, imm = 0),
];
