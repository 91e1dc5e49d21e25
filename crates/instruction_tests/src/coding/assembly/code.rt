//! Code with labels. Expected words come from GNU as 2.40 for the same source.

use rv_asm::{Asm, AsmFault, encode};
use rv_inst::Inst;
use std::alloc::Global;
use std::process::Abort;
use std::test::Fail;

const NOP: u32 = 0x0000_0013;

const BEQ: Inst = Inst::Beq {
    rs1: 1,
    rs2: 2,
    imm: 0,
};

/// The word with this index among bytes.
fn word_at(bytes: &[u8], index: usize) -> Option<u32> {
    if index >= bytes.len() / 4 {
        return None;
    }
    let at = 4 * index;
    Some(u32::from_le_bytes([bytes[at], bytes[at + 1], bytes[at + 2], bytes[at + 3]]))
}

/// A forward BEQ with so many words between it and its label.
fn forward(alloc: Global, between: u32) -> Result<Vec<u8>, AsmFault> {
    let mut asm = Asm::new(alloc, 0x10078, 1)?;
    asm.branch(BEQ, 0)?;
    for _ in 0..between {
        asm.push(NOP)?;
    }
    let _bound = asm.label(0);
    asm.push(NOP)?;
    asm.finish(alloc)
}

/// A backward BEQ with so many words from its label to it.
fn backward(alloc: Global, words: u32) -> Result<Vec<u8>, AsmFault> {
    let mut asm = Asm::new(alloc, 0x10078, 1)?;
    let _bound = asm.label(0);
    for _ in 0..words {
        asm.push(NOP)?;
    }
    asm.branch(BEQ, 0)?;
    asm.finish(alloc)
}

#[test]
fn branches_reach_4092_forward(rt: HostRuntime) -> Result<(), Fail> {
    let bytes = forward(rt.alloc(), 1022)?;
    assert!(rt; bytes.len() == 4 * 1024);
    assert!(rt; word_at(&bytes, 0) == Some(0x7e20_8ee3));
    assert!(rt; word_at(&bytes, 1) == Some(NOP));
    assert!(rt; matches!(forward(rt.alloc(), 1023), Err(AsmFault::TooFar(0))));
    Ok(())
}

#[test]
fn branches_reach_4096_backward(rt: HostRuntime) -> Result<(), Fail> {
    let bytes = backward(rt.alloc(), 1024)?;
    assert!(rt; word_at(&bytes, 1024) == Some(0x8020_8063));
    assert!(rt; matches!(backward(rt.alloc(), 1025), Err(AsmFault::TooFar(0))));
    Ok(())
}

/// Three words, a label before the last and one behind it; a label is bound once.
fn labelled(rt: &impl Abort, alloc: Global) -> Result<Asm, AsmFault> {
    let mut asm = Asm::new(alloc, 0x10078, 3)?;
    assert!(rt; asm.labels() == 3);
    assert!(rt; asm.place(0).is_none());
    asm.push(NOP)?;
    asm.push(NOP)?;
    assert!(rt; asm.label(0));
    assert!(rt; !asm.label(0));
    assert!(rt; !asm.label(3));
    asm.push(NOP)?;
    assert!(rt; asm.label(2));
    Ok(asm)
}

/// Labels, and where they then stand.
const PLACES: [(u32, Option<u64>); 4] = [
    (0, Some(0x10080)),
    (1, None),
    (2, Some(0x10084)),
    (3, None),
];

#[test]
fn keeps_labels(rt: HostRuntime) -> Result<(), Fail> {
    let mut asm = labelled(&rt, rt.alloc())?;
    for (label, place) in &PLACES {
        assert!(rt; asm.place(*label) == *place, "label {label}");
    }
    assert!(rt; matches!(asm.branch(BEQ, 3), Err(AsmFault::UnboundLabel(3))));
    let bytes = asm.finish(rt.alloc())?;
    assert!(rt; bytes.len() == 12);
    Ok(())
}

/// The sum of the numbers from 10 down to 1, then a jump over an EBREAK.
fn sum_of_ten(alloc: Global) -> Result<Vec<u8>, AsmFault> {
    let mut asm = Asm::new(alloc, 0x10078, 2)?;
    push(
        &mut asm,
        Inst::Addi {
            rd: 5,
            rs1: 0,
            imm: 10,
        },
    )?;
    push(
        &mut asm,
        Inst::Addi {
            rd: 6,
            rs1: 0,
            imm: 0,
        },
    )?;
    let _loop_start = asm.label(0);
    push(
        &mut asm,
        Inst::Add {
            rd: 6,
            rs1: 6,
            rs2: 5,
        },
    )?;
    push(
        &mut asm,
        Inst::Addi {
            rd: 5,
            rs1: 5,
            imm: -1,
        },
    )?;
    asm.branch(
        Inst::Bne {
            rs1: 5,
            rs2: 0,
            imm: 0,
        },
        0,
    )?;
    asm.branch(Inst::Jal { rd: 1, imm: 0 }, 1)?;
    push(&mut asm, Inst::Ebreak)?;
    let _done = asm.label(1);
    push(
        &mut asm,
        Inst::Addi {
            rd: 10,
            rs1: 6,
            imm: 0,
        },
    )?;
    asm.finish(alloc)
}

/// Appends an instruction, or EBREAK in place of one that doesn't fit.
fn push(asm: &mut Asm, inst: Inst) -> Result<(), AsmFault> {
    asm.push(encode(&inst).unwrap_or(0x0010_0073))?;
    Ok(())
}

/// The words of [`sum_of_ten`].
const WORDS: [u32; 8] = [
    0x00a0_0293,
    0x0000_0313,
    0x0053_0333,
    0xfff2_8293,
    0xfe02_9ce3,
    0x0080_00ef,
    0x0010_0073,
    0x0003_0513,
];

#[test]
fn makes_the_words_of_a_loop(rt: HostRuntime) -> Result<(), Fail> {
    let bytes = sum_of_ten(rt.alloc())?;
    assert!(rt; bytes.len() == 4 * WORDS.len());
    for (index, word) in WORDS.iter().enumerate() {
        assert!(rt; word_at(&bytes, index) == Some(*word), "word {index}");
    }
    Ok(())
}
