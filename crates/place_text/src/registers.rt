//! The registers of a hart.

ghost use Rattle.std.specs.Prelude.{◌≡◌, ◌+◌, ◌-◌, ◌<◌, ◌≤◌, ◌++◌, IfNone, IfSome, OnOk, drop, length};
ghost use Rattle.place_text.specs.Fields.{behind};
ghost use Rattle.place_text.specs.Registers.{register_fields, register_line, register_lines};

use crate::line_end::LineEnd;
use mach_types::{Hart, Regs};
use std::alloc::AllocError;

/// The fields of a register: `x` with its number, and its name in the calling convention, each behind a space.
/// They are the last of these bytes, so many. None only where there is no such register.
#[tactic(auto, unfolding(crate::specs::Registers::register_names, crate::proofs::Decimals::digits))]
fn fields_of(number: u8) -> Option<(&'static [u8; 8], usize)>
    ensures fields { IfSome result (λ said. drop (8 - said.1) said.0.now ≡ behind (register_fields number)) }
    ensures length { IfSome result (λ said. said.1 ≤ 8) }
    ensures none { IfNone result (32 ≤ number) }
{
    match number {
        0 => Some((b" x0 zero", 8)),
        1 => Some((b"   x1 ra", 6)),
        2 => Some((b"   x2 sp", 6)),
        3 => Some((b"   x3 gp", 6)),
        4 => Some((b"   x4 tp", 6)),
        5 => Some((b"   x5 t0", 6)),
        6 => Some((b"   x6 t1", 6)),
        7 => Some((b"   x7 t2", 6)),
        8 => Some((b"   x8 s0", 6)),
        9 => Some((b"   x9 s1", 6)),
        10 => Some((b"  x10 a0", 7)),
        11 => Some((b"  x11 a1", 7)),
        12 => Some((b"  x12 a2", 7)),
        13 => Some((b"  x13 a3", 7)),
        14 => Some((b"  x14 a4", 7)),
        15 => Some((b"  x15 a5", 7)),
        16 => Some((b"  x16 a6", 7)),
        17 => Some((b"  x17 a7", 7)),
        18 => Some((b"  x18 s2", 7)),
        19 => Some((b"  x19 s3", 7)),
        20 => Some((b"  x20 s4", 7)),
        21 => Some((b"  x21 s5", 7)),
        22 => Some((b"  x22 s6", 7)),
        23 => Some((b"  x23 s7", 7)),
        24 => Some((b"  x24 s8", 7)),
        25 => Some((b"  x25 s9", 7)),
        26 => Some((b" x26 s10", 8)),
        27 => Some((b" x27 s11", 8)),
        28 => Some((b"  x28 t3", 7)),
        29 => Some((b"  x29 t4", 7)),
        30 => Some((b"  x30 t5", 7)),
        31 => Some((b"  x31 t6", 7)),
        _ => None,
    }
}

/// Puts the fields of a register before the end of a line: `x` with its number, and its name in the calling convention, each behind a
/// space. The name is empty where there is no such register.
pub fn put_register(line: &mut LineEnd, number: u8)
    requires { length line.old ≤ 90 }
    ensures text { line.new ≡ behind (register_fields number) ++ line.old }
    ensures length { length line.new ≤ length line.old + 27 }
{
    match fields_of(number) {
        Some((bytes, length)) => line.put_last(bytes, length),
        None => {
            line.put(b" ");
            line.put_decimal(u64::from(number));
            line.put(b" x");
        }
    }
}

/// Appends the line of a register.
fn push_register(text: &mut Vec<u8>, hart: Hart, file: &Regs, number: u8) -> Result<(), AllocError>
    requires { number < 32 }
    ensures { OnOk result (text.new.items ≡ text.old.items ++ register_line hart.0 file.now number) }
{
    let mut line = LineEnd::newline();
    line.put_value(file.get(number));
    put_register(&mut line, number);
    line.put_number(u64::from(hart.0));
    line.put(b"hart");
    line.append_to(text)
}

/// Appends a line for each register.
pub fn push_registers(text: &mut Vec<u8>, hart: Hart, file: &Regs) -> Result<(), AllocError>
    ensures { OnOk result (text.new.items ≡ text.old.items ++ register_lines hart.0 file.now) }
{
    for number in 0..32 {
        push_register(text, hart, file, number)?;
    }
    Ok(())
}
