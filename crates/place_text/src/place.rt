//! The text of a place.

ghost use Rattle.std.specs.Prelude.{◌≡◌, ◌++◌, map, IfOk, OnOk};
ghost use Rattle.block_model.specs.Deciding.{history};
ghost use Rattle.place_text.specs.Live.{run_of};
ghost use Rattle.place_text.specs.Place as spec;
ghost use Rattle.place_text.specs.Seen.{past_of};

use crate::choices::push_choices;
use crate::ends::{push_end, push_number_line};
use crate::harts::push_hart;
use crate::threads::{LiveThread, live_threads, push_threads};
use mach_types::Hart;
use machine_core::Machine;
use std::alloc::{AllocError, Global};

/// Appends the lines of each hart.
fn push_all_harts(text: &mut Vec<u8>, machine: &Machine) -> Result<(), AllocError>
    ensures { OnOk result
        (text.new.items ≡ text.old.items ++ spec.harts_text machine.now.setting (past_of machine.now)) }
{
    for number in 0..machine.harts() {
        push_hart(text, machine, Hart(number))?;
    }
    Ok(())
}

/// Appends the lines of the choices of each hart, where these threads live.
fn push_all_choices(
    text: &mut Vec<u8>,
    machine: &Machine,
    live: &[LiveThread],
) -> Result<(), AllocError>
    ensures { OnOk result (text.new.items ≡ text.old.items
        ++ spec.choices_of_harts machine.now.setting (past_of machine.now) (map run_of live.now)) }
{
    for number in 0..machine.harts() {
        push_choices(text, machine, Hart(number), live)?;
    }
    Ok(())
}

/// The text of the place that a machine has come to: how many entries its log has and how the run ends that stops here; what is seen of
/// each hart and of each live thread; and for each hart what it may do next, or why it may not. It isn't the whole state: memory
/// ([`push_memory`]), the console and the registers of threads that run on no hart, for example, aren't shown.
pub fn place_text(alloc: Global, machine: &Machine) -> Result<Vec<u8>, AllocError>
    ensures { IfOk result (λ text. text.items
        ≡ spec.place_text machine.now.setting (history machine.now.setting machine.now.log)) }
{
    let kernel = machine.kernel();
    let live = live_threads(alloc, &kernel.threads)?;
    let mut text = Vec::new(alloc);
    push_number_line(&mut text, b"place", machine.log().len())?;
    push_end(&mut text, machine.end())?;
    push_all_harts(&mut text, machine)?;
    push_threads(&mut text, kernel, &live)?;
    push_all_choices(&mut text, machine, &live)?;
    Ok(text)
}
