//! The lines of a hart.

ghost use Rattle.std.specs.Prelude.{◌≡◌, ◌<◌, ◌++◌, Some, OnOk};
ghost use Rattle.block_model.specs.Acts.{named_at};
ghost use Rattle.block_model.specs.Here.{runs};
ghost use Rattle.process.specs.Sequences.{area_on};
ghost use Rattle.place_text.specs.Fields.{behind};
ghost use Rattle.place_text.specs.Harts as spec;
ghost use Rattle.place_text.specs.Registers.{register_lines};
ghost use Rattle.place_text.specs.Seen.{here_of, past_of};
ghost use Rattle.place_text.specs.Sequences.{area_line, names_line};

use crate::fields::{
    begin_line, push_harts, push_named_number, push_named_value, push_number, push_value,
    push_value_or_none, push_word, push_yes_or_no,
};
use crate::registers::push_registers;
use crate::sequences::{push_area, push_names};
use hart_state::HartState;
use mach_types::{Hart, Store, Tid};
use machine_core::Machine;
use std::alloc::AllocError;
use store_buffers::StoreBuffer;

/// Appends the line of an idle hart.
fn push_idle_line(text: &mut Vec<u8>, hart: Hart) -> Result<(), AllocError>
    ensures { OnOk result (text.new.items ≡ text.old.items ++ spec.idle_line hart.0) }
{
    begin_line(text, b"hart", u64::from(hart.0))?;
    text.extend_from_slice(b" idle\n")
}

/// Appends the line of the thread on a hart.
fn push_thread(
    text: &mut Vec<u8>,
    hart: Hart,
    tid: Tid,
    state: &HartState,
) -> Result<(), AllocError>
    ensures { OnOk result
        (text.new.items ≡ text.old.items ++ spec.thread_line hart.0 tid.0 state.now.pc state.now.cid) }
{
    begin_line(text, b"hart", u64::from(hart.0))?;
    push_named_number(text, b"thread", u64::from(tid.0))?;
    push_named_value(text, b"pc", state.pc)?;
    push_named_number(text, b"id", u64::from(state.cid))?;
    text.push(b'\n')?;
    Ok(())
}

/// Appends the line of a store that waits.
fn push_store(text: &mut Vec<u8>, hart: Hart, store: Store) -> Result<(), AllocError>
    ensures { OnOk result (text.new.items ≡ text.old.items ++ spec.store_line hart.0 store) }
{
    begin_line(text, b"hart", u64::from(hart.0))?;
    push_named_value(text, b"store", store.at)?;
    push_number(text, u64::from(store.size))?;
    push_value(text, store.value)?;
    text.push(b'\n')?;
    Ok(())
}

/// Appends a line for each store that waits, the oldest first.
fn push_stores(text: &mut Vec<u8>, hart: Hart, buffer: &StoreBuffer) -> Result<(), AllocError>
    ensures { OnOk result (text.new.items ≡ text.old.items ++ spec.store_lines hart.0 buffer.now) }
{
    for index in 0..buffer.len() {
        if let Some(store) = buffer.get(index) {
            push_store(text, hart, store)?;
        }
    }
    Ok(())
}

/// Appends the line of a reservation.
fn push_reservation(text: &mut Vec<u8>, hart: Hart, reserved: Option<u64>) -> Result<(), AllocError>
    ensures { OnOk result (text.new.items ≡ text.old.items ++ spec.reservation_line hart.0 reserved) }
{
    begin_line(text, b"hart", u64::from(hart.0))?;
    push_word(text, b"reservation")?;
    push_value_or_none(text, reserved)?;
    text.push(b'\n')?;
    Ok(())
}

/// Appends the line of the requests of barriers that are pending.
fn push_requests(text: &mut Vec<u8>, hart: Hart, requests: u8) -> Result<(), AllocError>
    ensures { OnOk result (text.new.items ≡ text.old.items ++ spec.requests_line hart.0 requests) }
{
    begin_line(text, b"hart", u64::from(hart.0))?;
    push_word(text, b"requests")?;
    push_harts(text, requests)?;
    text.push(b'\n')?;
    Ok(())
}

/// Appends the line that says whether one of them asks for a restart.
fn push_restart(text: &mut Vec<u8>, hart: Hart, restart: bool) -> Result<(), AllocError>
    ensures { OnOk result (text.new.items ≡ text.old.items ++ spec.restart_line hart.0 restart) }
{
    begin_line(text, b"hart", u64::from(hart.0))?;
    push_word(text, b"restart")?;
    push_yes_or_no(text, restart)?;
    text.push(b'\n')?;
    Ok(())
}

/// Appends the lines of what a hart keeps whether or not a thread runs there.
#[tactic(auto, unfolding(crate::specs::Harts::kept_lines))]
fn push_kept(text: &mut Vec<u8>, hart: Hart, state: &HartState) -> Result<(), AllocError>
    ensures { OnOk result (text.new.items
        ≡ text.old.items ++ spec.kept_lines hart.0 state.now.reserved state.now.requests state.now.restart) }
{
    push_reservation(text, hart, state.reserved)?;
    push_requests(text, hart, state.requests)?;
    push_restart(text, hart, state.restart)
}

/// Appends the fields of the barrier that a thread waits in.
fn push_barrier_fields(text: &mut Vec<u8>, waits: Option<u8>) -> Result<(), AllocError>
    ensures { OnOk result (text.new.items ≡ text.old.items ++ behind (spec.barrier_fields waits)) }
{
    match waits {
        None => push_word(text, b"none"),
        Some(0) => push_word(text, b"returns"),
        Some(left) => {
            push_word(text, b"waits")?;
            push_harts(text, left)
        }
    }
}

/// Appends the line of the barrier that a hart's thread waits in.
#[tactic(auto, unfolding(crate::specs::Harts::barrier_line))]
fn push_barrier(text: &mut Vec<u8>, hart: Hart, waits: Option<u8>) -> Result<(), AllocError>
    ensures { OnOk result (text.new.items ≡ text.old.items ++ spec.barrier_line hart.0 waits) }
{
    begin_line(text, b"hart", u64::from(hart.0))?;
    push_word(text, b"barrier")?;
    push_barrier_fields(text, waits)?;
    text.push(b'\n')?;
    Ok(())
}

/// Appends the lines of the thread on a hart, its registers and the stores that wait.
fn push_thread_state(
    text: &mut Vec<u8>,
    hart: Hart,
    tid: Tid,
    state: &HartState,
) -> Result<(), AllocError>
    ensures { OnOk result (text.new.items ≡ text.old.items
        ++ (spec.thread_line hart.0 tid.0 state.now.pc state.now.cid
        ++ register_lines hart.0 state.now.file ++ spec.store_lines hart.0 state.now.buffer)) }
{
    push_thread(text, hart, tid, state)?;
    push_registers(text, hart, &state.file)?;
    push_stores(text, hart, &state.buffer)
}

/// Appends the lines of the restartable sequence of a hart's thread.
fn push_sequence(
    text: &mut Vec<u8>,
    machine: &Machine,
    hart: Hart,
    pc: u64,
) -> Result<(), AllocError>
    requires { hart.0 < machine.now.setting.limits.harts }
    ensures { OnOk result
        (text.new.items ≡ text.old.items ++ (area_line hart.0 (area_on (here_of machine.now hart.0))
        ++ names_line hart.0 (named_at machine.now.setting hart.0 (past_of machine.now)) pc)) }
{
    push_area(text, hart, machine.area(hart))?;
    push_names(text, hart, machine.named(hart), pc)
}

/// Appends the lines of a hart on which a thread runs.
fn push_running(
    text: &mut Vec<u8>,
    machine: &Machine,
    hart: Hart,
    tid: Tid,
) -> Result<(), AllocError>
    requires hart { hart.0 < machine.now.setting.limits.harts }
    requires runs { runs (here_of machine.now hart.0) ≡ Some tid.0 }
    ensures { OnOk result
        (text.new.items ≡ text.old.items ++ spec.running_text (here_of machine.now hart.0) tid.0) }
{
    let state = machine.hart(hart);
    push_thread_state(text, hart, tid, state)?;
    push_kept(text, hart, state)?;
    push_barrier(text, hart, state.waits)?;
    push_sequence(text, machine, hart, state.pc)
}

/// Appends the lines of a hart on which no thread runs: its stores and what else it keeps are shown all the same.
fn push_idle(text: &mut Vec<u8>, hart: Hart, state: &HartState) -> Result<(), AllocError>
    ensures { OnOk result (text.new.items ≡ text.old.items ++ (spec.idle_line hart.0
        ++ spec.store_lines hart.0 state.now.buffer
        ++ spec.kept_lines hart.0 state.now.reserved state.now.requests state.now.restart)) }
{
    push_idle_line(text, hart)?;
    push_stores(text, hart, &state.buffer)?;
    push_kept(text, hart, state)
}

/// Appends the lines of a hart.
pub fn push_hart(text: &mut Vec<u8>, machine: &Machine, hart: Hart) -> Result<(), AllocError>
    requires { hart.0 < machine.now.setting.limits.harts }
    ensures { OnOk result (text.new.items ≡ text.old.items ++ spec.hart_text (here_of machine.now hart.0)) }
{
    let state = machine.hart(hart);
    match state.running {
        Some(tid) => push_running(text, machine, hart, tid),
        None => push_idle(text, hart, state),
    }
}
