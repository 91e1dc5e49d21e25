//! Rounds of two threads that each store a flag and load the other's.

use crate::calls::{FUTEX, MEMBARRIER, PRIVATE_EXPEDITED, REGISTER_PRIVATE_EXPEDITED};
use crate::labels::{
    COUNT_NEXT, HAVE_MET, MAIN, MEET, MEET_AGAIN, OTHER_ROUND, PRINT, ROUND, START_ALL, STOP,
    THREAD, WAIT_ALL,
};
use crate::layout::{DATA, MORE};
use crate::registers::{
    A0, A1, A2, A3, A7, BEGUN, OTHER_BEGUN, OWN_BEGUN, RA, ROUND_AT, SIZE, T0, T1, THREAD_COUNT,
    VALUE,
};
use crate::steps::{Step, branch, ecall, inst, label};
use percpu_lib::Line;
use rv_inst::Inst;

const FIRST_BEGUN: i64 = 0x100;

const SECOND_BEGUN: i64 = 0x108;

/// The first thread registers for the private expedited barrier (membarrier(2)) and starts another. In each
/// round the two meet; then each stores 1 as its flag and loads the other's, the first with that barrier in
/// between and the other with nothing. It prints in how many rounds both have read 0.
pub(crate) const DEKKER: [Step; 69] = [
    label!(MAIN),
    inst!(Addi rd = A0, rs1 = 0, imm = REGISTER_PRIVATE_EXPEDITED),
    inst!(Addi rd = A1, rs1 = 0, imm = 0),
    inst!(Addi rd = A2, rs1 = 0, imm = 0),
    inst!(Addi rd = A7, rs1 = 0, imm = MEMBARRIER),
    ecall!(),
    inst!(Lui rd = ROUND_AT, imm = MORE),
    inst!(Addi rd = BEGUN, rs1 = 0, imm = 0),
    inst!(Lui rd = T0, imm = DATA),
    inst!(Addi rd = OWN_BEGUN, rs1 = T0, imm = FIRST_BEGUN),
    inst!(Addi rd = OTHER_BEGUN, rs1 = T0, imm = SECOND_BEGUN),
    inst!(Addi rd = THREAD_COUNT, rs1 = 0, imm = 1),
    branch!(Jal rd = RA => START_ALL),
    label!(ROUND),
    branch!(Jal rd = RA => MEET),
    inst!(Sd rs1 = ROUND_AT, rs2 = VALUE, imm = 0),
    inst!(Addi rd = A0, rs1 = 0, imm = PRIVATE_EXPEDITED),
    inst!(Addi rd = A1, rs1 = 0, imm = 0),
    inst!(Addi rd = A2, rs1 = 0, imm = 0),
    inst!(Addi rd = A7, rs1 = 0, imm = MEMBARRIER),
    ecall!(),
    inst!(Ld rd = T0, rs1 = ROUND_AT, imm = 8),
    inst!(Sd rs1 = ROUND_AT, rs2 = T0, imm = 16),
    inst!(Addi rd = ROUND_AT, rs1 = ROUND_AT, imm = 32),
    branch!(Bne rs1 = BEGUN, rs2 = SIZE => ROUND),
    branch!(Jal rd = RA => WAIT_ALL),
    inst!(Lui rd = ROUND_AT, imm = MORE),
    inst!(Addi rd = A0, rs1 = 0, imm = 0),
    label!(COUNT_NEXT),
    inst!(Ld rd = T0, rs1 = ROUND_AT, imm = 16),
    inst!(Ld rd = T1, rs1 = ROUND_AT, imm = 24),
    inst!(Or rd = T0, rs1 = T0, rs2 = T1),
    inst!(Sltiu rd = T0, rs1 = T0, imm = 1),
    inst!(Add rd = A0, rs1 = A0, rs2 = T0),
    inst!(Addi rd = ROUND_AT, rs1 = ROUND_AT, imm = 32),
    inst!(Addi rd = SIZE, rs1 = SIZE, imm = -1),
    branch!(Bne rs1 = SIZE, rs2 = 0 => COUNT_NEXT),
    branch!(Jal rd = 0 => PRINT),
    label!(THREAD),
    inst!(Addi rd = T0, rs1 = OWN_BEGUN, imm = 0),
    inst!(Addi rd = OWN_BEGUN, rs1 = OTHER_BEGUN, imm = 0),
    inst!(Addi rd = OTHER_BEGUN, rs1 = T0, imm = 0),
    label!(OTHER_ROUND),
    branch!(Jal rd = RA => MEET),
    inst!(Sd rs1 = ROUND_AT, rs2 = VALUE, imm = 8),
    inst!(Ld rd = T0, rs1 = ROUND_AT, imm = 0),
    inst!(Sd rs1 = ROUND_AT, rs2 = T0, imm = 24),
    inst!(Addi rd = ROUND_AT, rs1 = ROUND_AT, imm = 32),
    branch!(Bne rs1 = BEGUN, rs2 = SIZE => OTHER_ROUND),
    branch!(Jal rd = 0 => STOP),
    label!(MEET),
    inst!(Addi rd = BEGUN, rs1 = BEGUN, imm = 1),
    inst!(Sw rs1 = OWN_BEGUN, rs2 = BEGUN, imm = 0),
    inst!(Addi rd = A0, rs1 = OWN_BEGUN, imm = 0),
    inst!(Addi rd = A1, rs1 = 0, imm = 1),
    inst!(Addi rd = A2, rs1 = 0, imm = 1),
    inst!(Addi rd = A7, rs1 = 0, imm = FUTEX),
    ecall!(),
    label!(MEET_AGAIN),
    inst!(Lw rd = A2, rs1 = OTHER_BEGUN, imm = 0),
    branch!(Bgeu rs1 = A2, rs2 = BEGUN => HAVE_MET),
    inst!(Addi rd = A0, rs1 = OTHER_BEGUN, imm = 0),
    inst!(Addi rd = A1, rs1 = 0, imm = 0),
    inst!(Addi rd = A3, rs1 = 0, imm = 0),
    inst!(Addi rd = A7, rs1 = 0, imm = FUTEX),
    ecall!(),
    branch!(Jal rd = 0 => MEET_AGAIN),
    label!(HAVE_MET),
    inst!(Jalr rd = 0, rs1 = RA, imm = 0),
];
