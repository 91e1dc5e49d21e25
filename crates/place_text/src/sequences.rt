//! The restartable sequence of a hart's thread: its area, and what that names (rseq(2)).

ghost use Rattle.std.specs.Prelude.{◌≡◌, ◌++◌, [], ◌∷◌, Some, OnOk, codes};
ghost use Rattle.step_log.specs.Text.{hex_text};
ghost use Rattle.place_text.specs.Fields.{behind};
ghost use Rattle.place_text.specs.Sequences.{area_fields, area_line, bad_word, inside_word, names_fields, names_line};

use crate::fields::{begin_line, push_hex, push_named_value, push_number, push_value, push_word};
use mach_types::{Area, BadWhy, Hart, Named, Seq};
use std::alloc::AllocError;

/// How many hexadecimal digits a signature has.
const SIGNATURE_DIGITS: u8 = 8;

/// The word of what is wrong.
pub fn bad_word(why: BadWhy) -> &'static [u8]
    ensures { result.now ≡ bad_word why }
{
    match why {
        BadWhy::AreaBytes => b"area-bytes",
        BadWhy::Pointer => b"pointer",
        BadWhy::Descriptor => b"descriptor",
        BadWhy::Version => b"version",
        BadWhy::Range => b"range",
        BadWhy::AbortInside => b"abort-inside",
        BadWhy::Signature => b"signature",
        BadWhy::SeqFlags => b"sequence-flags",
    }
}

/// The word of a thread that is inside its sequence, or isn't.
fn inside_word(inside: bool) -> &'static [u8]
    ensures { result.now ≡ inside_word inside }
{
    if inside { b"inside" } else { b"outside" }
}

/// Appends the signature of an area.
fn push_signature(text: &mut Vec<u8>, signature: u32) -> Result<(), AllocError>
    ensures { OnOk result
        (text.new.items ≡ text.old.items ++ behind (codes "signature" ∷ hex_text 8 signature ∷ [])) }
{
    push_word(text, b"signature")?;
    push_hex(text, SIGNATURE_DIGITS, u64::from(signature))
}

/// Appends the fields of an area that is registered.
fn push_registered(text: &mut Vec<u8>, area: Area) -> Result<(), AllocError>
    ensures { OnOk result (text.new.items ≡ text.old.items ++ behind (area_fields (Some area))) }
{
    push_value(text, area.at)?;
    push_signature(text, area.sig)
}

/// Appends the fields of an area, if there is one.
pub fn push_area_fields(text: &mut Vec<u8>, area: Option<Area>) -> Result<(), AllocError>
    ensures { OnOk result (text.new.items ≡ text.old.items ++ behind (area_fields area)) }
{
    match area {
        Some(area) => push_registered(text, area),
        None => push_word(text, b"none"),
    }
}

/// Appends the line of the area of a hart's thread.
pub fn push_area(text: &mut Vec<u8>, hart: Hart, area: Option<Area>) -> Result<(), AllocError>
    ensures { OnOk result (text.new.items ≡ text.old.items ++ area_line hart.0 area) }
{
    begin_line(text, b"hart", u64::from(hart.0))?;
    push_word(text, b"area")?;
    push_area_fields(text, area)?;
    text.push(b'\n')?;
    Ok(())
}

/// Appends the fields of a sequence that can be used, and whether a pc is inside.
fn push_good(text: &mut Vec<u8>, sequence: Seq, pc: u64) -> Result<(), AllocError>
    ensures { OnOk result
        (text.new.items ≡ text.old.items ++ behind (names_fields (Named.Good sequence) pc)) }
{
    push_named_value(text, b"good", sequence.start)?;
    push_number(text, sequence.length)?;
    push_value(text, sequence.abort)?;
    push_word(text, inside_word(sequence.is_inside(pc)))
}

/// Appends the fields of what an area names for a thread at a pc.
fn push_names_fields(text: &mut Vec<u8>, named: Named, pc: u64) -> Result<(), AllocError>
    ensures { OnOk result (text.new.items ≡ text.old.items ++ behind (names_fields named pc)) }
{
    match named {
        Named::Nothing => push_word(text, b"nothing"),
        Named::Good(sequence) => push_good(text, sequence, pc),
        Named::Bad(why) => {
            push_word(text, b"bad")?;
            push_word(text, bad_word(why))
        }
    }
}

/// Appends the line of what the area of a hart's thread names at its pc.
pub fn push_names(text: &mut Vec<u8>, hart: Hart, named: Named, pc: u64) -> Result<(), AllocError>
    ensures { OnOk result (text.new.items ≡ text.old.items ++ names_line hart.0 named pc) }
{
    begin_line(text, b"hart", u64::from(hart.0))?;
    push_word(text, b"names")?;
    push_names_fields(text, named, pc)?;
    text.push(b'\n')?;
    Ok(())
}
