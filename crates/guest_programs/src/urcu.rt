//! A thread exchanges nodes that three others read, and waits for them by user-space RCU on membarrier.

use crate::calls::{MEMBARRIER, REGISTER_PRIVATE_EXPEDITED};
use crate::labels::{
    BASE, IS_ALIVE, MAIN, PRINT_SUM, READ_NEXT, START_ALL, STOP, THREAD, UPDATE_NEXT, WAIT_ALL,
};
use crate::layout::{DATA, GRACE, MORE, THREADS};
use crate::registers::{
    A0, A1, A2, A7, CELLS_AT, GP, NODE, NODES, OWN, RA, SCRATCH, SIZE, SLOT, SLOTS, T0,
    THREAD_COUNT,
};
use crate::steps::{Step, branch, ecall, inst, label};
use percpu_lib::Line;
use rv_inst::Inst;

const POINTER: i64 = 128;

/// Where a reader leaves its number of zeros, from its slot on: in the cell of processor 4, 5 or 6.
const ZEROS: i64 = 192;

/// The first thread starts three readers. As often as the size says it writes 1 into the other of two nodes, lets the
/// pointer lead there, waits for the readers by a sync block, and writes 0 into the node that it has left. A
/// reader reads the node at the pointer as often, between a lock and an unlock block, and counts zeros. Then
/// the number of zeros is printed.
pub(crate) const URCU: [Step; 67] = [
    label!(MAIN),
    inst!(Addi rd = THREAD_COUNT, rs1 = 0, imm = 3),
    inst!(Lui rd = GP, imm = DATA),
    inst!(Addi rd = GP, rs1 = GP, imm = GRACE),
    inst!(Addi rd = SLOTS, rs1 = CELLS_AT, imm = 64),
    inst!(Lui rd = NODES, imm = MORE),
    inst!(Addi rd = T0, rs1 = 0, imm = 1),
    inst!(Sd rs1 = NODES, rs2 = T0, imm = 0),
    inst!(Sd rs1 = NODES, rs2 = NODES, imm = POINTER),
    inst!(Addi rd = A0, rs1 = 0, imm = REGISTER_PRIVATE_EXPEDITED),
    inst!(Addi rd = A1, rs1 = 0, imm = 0),
    inst!(Addi rd = A2, rs1 = 0, imm = 0),
    inst!(Addi rd = A7, rs1 = 0, imm = MEMBARRIER),
    ecall!(),
    branch!(Jal rd = RA => START_ALL),
    inst!(Addi rd = NODE, rs1 = NODES, imm = 0),
    inst!(Addi rd = SCRATCH, rs1 = NODES, imm = 64),
    label!(UPDATE_NEXT),
    inst!(Addi rd = T0, rs1 = 0, imm = 1),
    inst!(Sd rs1 = SCRATCH, rs2 = T0, imm = 0),
    inst!(Sd rs1 = NODES, rs2 = SCRATCH, imm = POINTER),
    // The sync block.
    inst!(Addi rd = 10, rs1 = 0, imm = 8),
    inst!(Addi rd = 11, rs1 = 0, imm = 0),
    inst!(Addi rd = 12, rs1 = 0, imm = 0),
    inst!(Addi rd = 17, rs1 = 0, imm = MEMBARRIER),
    ecall!(),
    inst!(Ld rd = 5, rs1 = GP, imm = 0),
    inst!(Addi rd = 5, rs1 = 5, imm = 1),
    inst!(Sd rs1 = GP, rs2 = 5, imm = 0),
    inst!(Addi rd = 6, rs1 = SLOTS, imm = 0),
    inst!(Addi rd = 7, rs1 = 0, imm = 3),
    label!(BASE),
    inst!(Ld rd = 10, rs1 = 6, imm = 0),
    branch!(Beq rs1 = 10, rs2 = 0 => BASE + 1),
    branch!(Bltu rs1 = 10, rs2 = 5 => BASE),
    label!(BASE + 1),
    inst!(Addi rd = 6, rs1 = 6, imm = 64),
    inst!(Addi rd = 7, rs1 = 7, imm = -1),
    branch!(Bne rs1 = 7, rs2 = 0 => BASE),
    inst!(Addi rd = 10, rs1 = 0, imm = 0),
    // Nobody reads the node that was left.
    inst!(Sd rs1 = NODE, rs2 = 0, imm = 0),
    inst!(Addi rd = T0, rs1 = NODE, imm = 0),
    inst!(Addi rd = NODE, rs1 = SCRATCH, imm = 0),
    inst!(Addi rd = SCRATCH, rs1 = T0, imm = 0),
    inst!(Addi rd = SIZE, rs1 = SIZE, imm = -1),
    branch!(Bne rs1 = SIZE, rs2 = 0 => UPDATE_NEXT),
    branch!(Jal rd = RA => WAIT_ALL),
    branch!(Jal rd = 0 => PRINT_SUM),
    label!(THREAD),
    inst!(Lui rd = T0, imm = THREADS),
    inst!(Sub rd = T0, rs1 = OWN, rs2 = T0),
    inst!(Srli rd = T0, rs1 = T0, shamt = 4),
    inst!(Add rd = SLOT, rs1 = CELLS_AT, rs2 = T0),
    inst!(Addi rd = NODE, rs1 = 0, imm = 0),
    label!(READ_NEXT),
    // The lock block.
    inst!(Ld rd = SCRATCH, rs1 = GP, imm = 0),
    inst!(Sd rs1 = SLOT, rs2 = SCRATCH, imm = 0),
    inst!(Ld rd = T0, rs1 = NODES, imm = POINTER),
    inst!(Ld rd = T0, rs1 = T0, imm = 0),
    // The unlock block.
    inst!(Sd rs1 = SLOT, rs2 = 0, imm = 0),
    branch!(Bne rs1 = T0, rs2 = 0 => IS_ALIVE),
    inst!(Addi rd = NODE, rs1 = NODE, imm = 1),
    label!(IS_ALIVE),
    inst!(Addi rd = SIZE, rs1 = SIZE, imm = -1),
    branch!(Bne rs1 = SIZE, rs2 = 0 => READ_NEXT),
    inst!(Sd rs1 = SLOT, rs2 = NODE, imm = ZEROS),
    branch!(Jal rd = 0 => STOP),
];
