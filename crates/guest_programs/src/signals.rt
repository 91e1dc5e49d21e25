//! A thread adds to its counter while it is sent signals.

use crate::calls::{RT_SIGACTION, SIGUSR1, TGKILL};
use crate::labels::{
    ADD_NEXT, BASE, BEHIND_HANDLER, MAIN, PRINT_SUM, SEND_NEXT, START_ALL, STOP, THREAD, WAIT_ALL,
};
use crate::layout::{ACTION, DATA, FIRST_TABLE, NUMBER, THREAD_SIZE};
use crate::registers::{A0, A1, A2, A3, A7, OTHER, OWN, RA, SECOND, SIZE, T0, THREAD_COUNT};
use crate::steps::{BlockKind, Step, branch, ecall, inst, label};
use percpu_lib::Line;
use rv_inst::Inst;

/// The first thread sets a handler of SIGUSR1 that only returns, and starts another. That one adds 1 as often
/// as the size says, and the first sends it the signal as often. Then the sum of the counters is printed.
pub(crate) const SIGNALS: [Step; 32] = [
    label!(MAIN),
    branch!(Jal rd = T0 => BEHIND_HANDLER),
    inst!(Jalr rd = 0, rs1 = RA, imm = 0),
    label!(BEHIND_HANDLER),
    inst!(Lui rd = A1, imm = DATA),
    inst!(Addi rd = A1, rs1 = A1, imm = ACTION),
    inst!(Sd rs1 = A1, rs2 = T0, imm = 0),
    inst!(Addi rd = A0, rs1 = 0, imm = SIGUSR1),
    inst!(Addi rd = A2, rs1 = 0, imm = 0),
    inst!(Addi rd = A3, rs1 = 0, imm = 8),
    inst!(Addi rd = A7, rs1 = 0, imm = RT_SIGACTION),
    ecall!(),
    inst!(Addi rd = THREAD_COUNT, rs1 = 0, imm = 1),
    branch!(Jal rd = RA => START_ALL),
    inst!(Addi rd = OTHER, rs1 = OWN, imm = THREAD_SIZE),
    inst!(Lw rd = SECOND, rs1 = OTHER, imm = NUMBER),
    label!(SEND_NEXT),
    inst!(Addi rd = A0, rs1 = 0, imm = 1),
    inst!(Addi rd = A1, rs1 = SECOND, imm = 0),
    inst!(Addi rd = A2, rs1 = 0, imm = SIGUSR1),
    inst!(Addi rd = A7, rs1 = 0, imm = TGKILL),
    ecall!(),
    inst!(Addi rd = SIZE, rs1 = SIZE, imm = -1),
    branch!(Bne rs1 = SIZE, rs2 = 0 => SEND_NEXT),
    branch!(Jal rd = RA => WAIT_ALL),
    branch!(Jal rd = 0 => PRINT_SUM),
    label!(THREAD),
    label!(ADD_NEXT),
    Step::Block(BlockKind::Add, BASE, FIRST_TABLE),
    inst!(Addi rd = SIZE, rs1 = SIZE, imm = -1),
    branch!(Bne rs1 = SIZE, rs2 = 0 => ADD_NEXT),
    branch!(Jal rd = 0 => STOP),
];
