//! A span of a log with the events of others before those of a hart.

ghost use Rattle.std.specs.Prelude.{◌≡◌, ◌<◌, ◌++◌, true, IfOk, length};
ghost use Rattle.std.specs.List.{list_all};
ghost use Rattle.log_gather.specs.Marks.{AreOf, AreTaken, are_known, other_marks, own_marks, reserved_by, steps_of};
ghost use Rattle.log_gather.specs.Turns.{is_of_eight, moved_steps, renewed};

use crate::marks::{Details, Mark};
use mach_types::Hart;
use std::alloc::{AllocError, Global};

/// Finds anew what is reserved before each of plain events, where what has this number is reserved before the first.
fn renew(details: &mut Details, span: &mut [Mark], first: u32) -> Result<(), AllocError>
    requires eight { list_all is_of_eight (steps_of details.old span.old) ≡ true }
    requires known { are_known details.old span.old ≡ true }
    requires first { first < length details.old.reserved.items }
    ensures { IfOk result (λ _. AreOf details.old
        (renewed (reserved_by details.old first) (steps_of details.old span.old)) details.new span.new) }
{
    let mut number = first;
    for mark in span.iter_mut() {
        number = details.renew(mark, number)?;
    }
    Ok(())
}

/// Takes the marks of a hart out of a span, in their order, and puts those of others at its front, in theirs.
fn take_own(alloc: Global, span: &mut [Mark], hart: Hart) -> Result<Vec<Mark>, AllocError>
    ensures { IfOk result (λ own. AreTaken hart.0 span.old span.new own.items) }
{
    let mut own = Vec::new(alloc);
    let mut others: usize = 0;
    for i in 0..span.len() {
        let mark = span[i];
        if mark.is_of(hart) {
            own.push(mark)?;
            continue;
        }
        span[others] = mark;
        others += 1;
    }
    Ok(own)
}

/// Puts marks where as many others are.
fn put(marks: &mut [Mark], these: &[Mark])
    requires { length marks.old ≡ length these.now }
    ensures { marks.new ≡ these.now }
{
    marks.copy_from_slice(these);
}

/// Puts the marks of others in a span before those of a hart, each in their order.
fn put_others_first(alloc: Global, span: &mut [Mark], hart: Hart) -> Result<(), AllocError>
    ensures { IfOk result (λ _. span.new ≡ other_marks hart.0 span.old ++ own_marks hart.0 span.old) }
{
    let own = take_own(alloc, span, hart)?;
    let others = span.len() - own.len();
    put(&mut span[others..], &own);
    Ok(())
}

/// Puts the events of others in a span before those of a hart, each in their order. What is reserved before each is found anew, from what
/// was reserved before the first.
pub(crate) fn move_others(
    alloc: Global,
    details: &mut Details,
    span: &mut [Mark],
    hart: Hart,
) -> Result<(), AllocError>
    requires eight { list_all is_of_eight (steps_of details.old span.old) ≡ true }
    requires known { are_known details.old span.old ≡ true }
    ensures { IfOk result (λ _. AreOf details.old (moved_steps hart.0 (steps_of details.old span.old)) details.new span.new) }
{
    let Some(first) = span.first() else {
        return Ok(());
    };
    let reserved = first.reserved;
    put_others_first(alloc, span, hart)?;
    renew(details, span, reserved)?;
    Ok(())
}
