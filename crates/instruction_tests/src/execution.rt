//! Tests of `rv_exec`: what its functions give on vectors from outside, and on cases of the manual.

mod manual;
mod vectors;

use mach_types::Regs;
use manual::EFFECTS;
use rv_exec::{amo_value, effect, finish_load};
use rv_inst::Effect;
use vectors::{AMOS, BRANCHES, IMMEDIATES, LOADS, REGISTERS};

/// Registers with x1 and x2 set.
fn registers(x1: u64, x2: u64) -> Regs {
    let mut regs = Regs::new();
    regs.set(1, x1);
    regs.set(2, x2);
    regs
}

#[test]
fn register_vectors(rt: HostRuntime) {
    for (inst, a, b, value) in &REGISTERS {
        let after = Effect::Next {
            rd: 3,
            value: *value,
            pc: 0x1004,
        };
        assert!(rt;
            effect(inst, &registers(*a, *b), 0x1000) == after,
            "{a:x} {b:x}"
        );
    }
}

#[test]
fn immediate_vectors(rt: HostRuntime) {
    for (inst, a, value) in &IMMEDIATES {
        let after = Effect::Next {
            rd: 3,
            value: *value,
            pc: 0x1004,
        };
        assert!(rt;
            effect(inst, &registers(*a, 0), 0x1000) == after,
            "{a:x} {value:x}"
        );
    }
}

#[test]
fn branch_vectors(rt: HostRuntime) {
    for (inst, a, b, is_taken) in &BRANCHES {
        let pc = if *is_taken { 0xff8 } else { 0x1004 };
        let after = Effect::Next {
            rd: 0,
            value: 0,
            pc,
        };
        assert!(rt;
            effect(inst, &registers(*a, *b), 0x1000) == after,
            "{a:x} {b:x}"
        );
    }
}

#[test]
fn load_vectors(rt: HostRuntime) {
    for (size, signed, raw, value) in &LOADS {
        assert!(rt;
            finish_load(*raw, *size, *signed) == *value,
            "{raw:x} {size}"
        );
    }
}

#[test]
fn amo_vectors(rt: HostRuntime) {
    for (op, size, old, value, after, loaded) in &AMOS {
        assert!(rt;
            amo_value(*op, *size, *old, *value) == *after,
            "{size} {old:x} {value:x}"
        );
        assert!(rt; finish_load(*old, *size, true) == *loaded, "{size} {old:x}");
    }
}

#[test]
fn manual_cases(rt: HostRuntime) {
    for (inst, a, b, after) in &EFFECTS {
        assert!(rt;
            effect(inst, &registers(*a, *b), 0x1000) == *after,
            "{a:x} {b:x}"
        );
    }
}
