//! Appends the steps of a guest to an assembler.

ghost use Rattle.std.specs.Prelude.{◌≡◌, ◌<◌, ◌++◌, Err, IfOk, OnOk, length, true};
ghost use Rattle.rv_asm.specs.Assembly.{empty};
ghost use Rattle.percpu_lib.specs.Lines.{AreEmitted, HasRoom};
ghost use Rattle.guest_programs.specs.Steps.{are_good, guest_lines, has_step_room, have_room, is_step_good};
ghost use Rattle.guest_programs.specs.Steps.{lines_of, lines_of_block, lines_of_step, own_steps, slots_of};

use crate::counter::COUNTER;
use crate::dekker::DEKKER;
use crate::labels::LABELS;
use crate::layout::CODE;
use crate::list::LIST;
use crate::migrate::MIGRATE;
use crate::pool::POOL;
use crate::registers::{AREA, CELLS_AT, VALUE};
use crate::ring::RING;
use crate::shared::{BEGINNING, ENDING, PINNING, PRINTING, STARTING};
use crate::signals::SIGNALS;
use crate::steps::{BlockKind, Step};
use crate::urcu::URCU;
use guest_names::Name;
use percpu_lib::{BlockKind as Kind, EmitFault, RingWay, Slots, emit_lines, emit_ring};
use rv_asm::Asm;
use std::alloc::{AllocError, Global};

/// The steps that only a guest has.
fn own_steps(name: Name) -> &'static [Step]
    ensures steps { result.now ≡ own_steps name }
    ensures good { are_good LABELS result.now ≡ true }
{
    match name {
        Name::Counter => &COUNTER,
        Name::List => &LIST,
        Name::Pool => &POOL,
        Name::Dekker => &DEKKER,
        Name::Signals => &SIGNALS,
        Name::Migrate => &MIGRATE,
        Name::Ring => &RING,
        Name::Urcu => &URCU,
    }
}

/// Appends a block.
#[tactic(auto, using(crate::proofs::Emitted::slots_are))]
fn emit_block(
    alloc: Global,
    asm: &mut Asm,
    kind: BlockKind,
    base: u32,
    table: u64,
) -> Result<(), EmitFault>
    requires { table < 0x7FFFF800 }
    ensures emitted { OnOk result (AreEmitted (lines_of_block kind (slots_of table) base) asm.old asm.new) }
    ensures room { result ≡ Err EmitFault.Room → HasRoom asm.old.labels base → ⊥ }
{
    let slots = Slots {
        area: AREA,
        cells: CELLS_AT,
        value: VALUE,
        table,
    };
    match kind {
        BlockKind::Add => percpu_lib::emit_block(alloc, asm, base, &slots, Kind::Adds),
        BlockKind::Push => percpu_lib::emit_block(alloc, asm, base, &slots, Kind::Pushes),
        BlockKind::Pop => percpu_lib::emit_block(alloc, asm, base, &slots, Kind::Pops),
        BlockKind::Alloc => percpu_lib::emit_block(alloc, asm, base, &slots, Kind::Allocs),
        BlockKind::Free => percpu_lib::emit_block(alloc, asm, base, &slots, Kind::Frees),
        BlockKind::RingPut => emit_ring(alloc, asm, base, &slots, RingWay::In, 4),
        BlockKind::RingGet => emit_ring(alloc, asm, base, &slots, RingWay::Out, 4),
    }
}

/// Appends a step.
fn emit_step(alloc: Global, asm: &mut Asm, step: Step) -> Result<(), AllocError>
    requires labels { length asm.old.labels ≡ LABELS }
    requires good { is_step_good LABELS step ≡ true }
    requires room { has_step_room asm.old.labels step ≡ true }
    ensures { OnOk result (AreEmitted (lines_of_step step) asm.old asm.new) }
{
    match step {
        Step::Of(line) => {
            emit_lines(asm, &[line])?;
            Ok(())
        }
        Step::Block(kind, base, table) => match emit_block(alloc, asm, kind, base, table) {
            Ok(()) => Ok(()),
            Err(EmitFault::NoMemory) => Err(AllocError),
            Err(EmitFault::Room) => unreachable!(),
        },
    }
}

/// Appends steps.
fn emit_steps(alloc: Global, asm: &mut Asm, steps: &[Step]) -> Result<(), AllocError>
    requires labels { length asm.old.labels ≡ LABELS }
    requires good { are_good LABELS steps.now ≡ true }
    requires room { have_room asm.old.labels (length asm.old.items) steps.now ≡ true }
    ensures emitted { OnOk result (AreEmitted (lines_of steps.now) asm.old asm.new) }
    ensures labels { OnOk result (length asm.new.labels ≡ LABELS) }
{
    for step in steps {
        emit_step(alloc, asm, *step)?;
    }
    Ok(())
}

/// The assembler of a guest.
pub(crate) fn assembler(alloc: Global, name: Name) -> Result<Asm, AllocError>
    ensures { IfOk result (λ asm. AreEmitted (guest_lines name) (empty CODE LABELS) asm) }
{
    let mut asm = Asm::new(alloc, CODE, LABELS)?;
    emit_steps(alloc, &mut asm, &BEGINNING)?;
    emit_steps(alloc, &mut asm, &STARTING)?;
    emit_steps(alloc, &mut asm, &ENDING)?;
    emit_steps(alloc, &mut asm, &PRINTING)?;
    emit_steps(alloc, &mut asm, &PINNING)?;
    emit_steps(alloc, &mut asm, own_steps(name))?;
    Ok(asm)
}
