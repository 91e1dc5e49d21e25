//! The loop of a drawn run.

ghost use Rattle.std.specs.Prelude.{◌≡◌, ◌≤◌, ◌<◌, ◌++◌, ◌∷◌, [], ◌↔◌, false, IfNone, IfOk, IfSome, OnOk, IsTrue, is_some, length, take};
ghost use Rattle.std.specs.Option.{option_map_or};
ghost use Rattle.mach_types.specs.{Events.kind_of, Limits.InRange};
ghost use Rattle.mach_types.specs.declared.events.Kind.TheVariants as kinds;
ghost use Rattle.mach_types.specs.declared.limits.End.TheVariants.{Unended};
ghost use Rattle.elf_load.specs.{Images.IsBootable, Start.program_of};
ghost use Rattle.block_model.specs.Deciding.{end_of, history};
ghost use Rattle.block_model.specs.{History.here_in_history, History.waiting, Run.IsBlockRun, Setting.setting_of, Sights.effect_here};
ghost use Rattle.drawn_runs.specs.DrawnRuns.{first_drawing};
ghost use Rattle.drawn_runs.specs.WholeRuns.{IsDrawnRun, IsWholeDrawn};
ghost use Rattle.drawings.specs.Drawings as draws;
ghost use Rattle.drawn_machine.specs.OnTheWay.{GoesOn, IsOnAWay};
ghost use Rattle.drawn_machine.specs.Overtaken.{loads, overtakes, stores_in};
ghost use Rattle.drawn_machine.specs.Preemptions.{leaves_inside, left_inside_in};
ghost use Rattle.drawn_machine.specs.Scenes.{scene_of};
ghost use Rattle.drawn_machine.specs.Waits.{wait_counts_in};

use crate::seen_harts::SeenHarts;
use crate::store_pcs::StorePcs;
use crate::store_waits::StoreWaits;
use drawings::{Drawing, DrawnEvent, Harts};
use drawn_runs::Manner;
use elf_load::Image;
use mach_types::{End, Entry, Hart, Limits};
use machine_core::Machine;
use rv_inst::{Effect, asks};
use std::alloc::{AllocError, Global};

/// A drawn run, on a machine that makes one after the other.
#[derive(Drop)]
pub struct DrawnRun {
    /// The machine, where the run has come to.
    pub machine: Machine,
    /// How often a thread left its hart inside a good restartable sequence.
    pub left_inside: u32,
    /// By the number of instructions that a hart executed behind one of its stores until that entered memory, 0 to 255: how many
    /// stores waited so long, at the last place for [`crate::LONG_WAIT`] instructions or more.
    pub waits: [u32; 256],
    /// Which stores were executed, and which of them a load overtook.
    pub stores: StorePcs,
}

/// An event that was drawn and made.
#[derive(Clone, Copy, Drop)]
struct MadeEvent {
    /// Its entry in the log.
    entry: Entry,
    /// Whether a thread left its hart by it, inside a good restartable sequence.
    left_inside: bool,
    /// Whether it is a load that overtook the stores that wait on its hart.
    overtakes: bool,
}

/// Runs an image in this manner, until the run has ended or the log is full.
///
/// Fails only where memory is short. All of it is taken before the first event, but for what [`StorePcs`] take.
pub fn run_drawn(
    alloc: Global,
    image: &Image,
    limits: Limits,
    manner: &Manner,
) -> Result<DrawnRun, AllocError>
    requires image { IsBootable limits.frames image.now }
    requires limits { InRange limits }
    requires unscripted { manner.now.scripted ≡ 0 }
    ensures run { IfOk result (λ run. IsWholeDrawn (setting_of image.now limits) manner.now run.machine) }
    ensures inside { IfOk result (λ run. run.left_inside ≡ left_inside_in run.machine) }
    ensures waits { IfOk result (λ run. run.waits ≡ wait_counts_in run.machine) }
    ensures stores { IfOk result (λ run. run.stores ≡ stores_in run.machine) }
{
    let mut run = DrawnRun::at_start(alloc, image, limits, manner.seed)?;
    run.go(manner)?;
    Ok(run)
}

impl DrawnRun {
    /// A run of which no event is drawn yet.
    ///
    /// Fails only where memory is short.
    pub fn at_start(
        alloc: Global,
        image: &Image,
        limits: Limits,
        seed: u64,
    ) -> Result<DrawnRun, AllocError>
        requires image { IsBootable limits.frames image.now }
        requires limits { InRange limits }
        ensures machine { IfOk result (λ run. run.machine
            ≡ record { setting = setting_of image.now limits; seed = seed; log = [] }) }
        ensures inside { IfOk result (λ run. run.left_inside ≡ left_inside_in run.machine) }
        ensures waits { IfOk result (λ run. run.waits ≡ wait_counts_in run.machine) }
        ensures stores { IfOk result (λ run. run.stores ≡ stores_in run.machine) }
    {
        let machine = Machine::boot(alloc, image, limits, seed)?;
        Ok(DrawnRun {
            machine,
            left_inside: 0,
            waits: [0; 256],
            stores: StorePcs::new(alloc),
        })
    }

    /// Runs the image that the machine was booted with once more, in this manner, until the run has ended or the log is full: it is
    /// then a run that [`run_drawn`] makes.
    ///
    /// Fails only where memory is short. A machine that has as many frames as its limits name takes none, but for what [`StorePcs`]
    /// take.
    pub fn again(&mut self, alloc: Global, image: &Image, manner: &Manner) -> Result<(), AllocError>
        requires image { IsBootable self.old.machine.setting.limits.frames image.now }
        requires program { self.old.machine.setting.program ≡ program_of image.now }
        requires limits { InRange self.old.machine.setting.limits }
        requires unscripted { manner.now.scripted ≡ 0 }
        ensures run { OnOk result (IsWholeDrawn self.old.machine.setting manner.now self.new.machine) }
        ensures inside { OnOk result (self.new.left_inside ≡ left_inside_in self.new.machine) }
        ensures waits { OnOk result (self.new.waits ≡ wait_counts_in self.new.machine) }
        ensures stores { OnOk result (self.new.stores ≡ stores_in self.new.machine) }
        ensures setting { self.new.machine.setting ≡ self.old.machine.setting }
    {
        self.machine.reset(alloc, image, manner.seed)?;
        self.go(manner)
    }

    /// Draws the events of a run of which none is drawn yet, until it has ended or the log is full.
    fn go(&mut self, manner: &Manner) -> Result<(), AllocError>
        requires limits { InRange self.old.machine.setting.limits }
        requires start { self.old.machine.log ≡ [] }
        requires unscripted { manner.now.scripted ≡ 0 }
        ensures run { OnOk result (IsWholeDrawn self.old.machine.setting manner.now self.new.machine) }
        ensures inside { OnOk result (self.new.left_inside ≡ left_inside_in self.new.machine) }
        ensures waits { OnOk result (self.new.waits ≡ wait_counts_in self.new.machine) }
        ensures stores { OnOk result (self.new.stores ≡ stores_in self.new.machine) }
        ensures setting { self.new.machine.setting ≡ self.old.machine.setting }
    {
        let mut drawing = first_drawing(&self.machine, manner);
        let mut waits = StoreWaits::new();
        self.left_inside = 0;
        self.stores.clear();
        'events: while goes_on(&self.machine) {
            let made = draw_event(&mut self.machine, &mut drawing);
            self.left_inside += u32::from(made.left_inside);
            let entry = made.entry;
            let waiting = waiting_on(&self.machine, entry.hart);
            waits.count(entry, waiting, made.overtakes, &mut self.stores)?;
        }
        self.waits = waits.counts;
        Ok(())
    }
}

/// Draws the events of a machine from where it stands, until the run has ended or the log is full. The log so far has the
/// entries of the manner's script.
pub fn draw_on(machine: &mut Machine, manner: &Manner)
    requires limits { InRange machine.old.setting.limits }
    requires block_run { IsBlockRun machine.old.setting machine.old.log }
    requires scripted { manner.now.scripted ≡ length machine.old.log }
    ensures setting { machine.new.setting ≡ machine.old.setting }
    ensures begins { take (length machine.old.log) machine.new.log ≡ machine.old.log }
    ensures drawn { IsDrawnRun machine.new.setting manner.now machine.new.log }
{
    let mut drawing = first_drawing(machine, manner);
    'events: while goes_on(machine) {
        draw_event(machine, &mut drawing);
    }
}

/// What events are drawn from where none is drawn yet.
fn first_drawing(machine: &Machine, manner: &Manner) -> Drawing
    requires { machine.now.setting.limits.harts ≤ 8 }
    ensures { result ≡ first_drawing machine.now.setting manner.now }
{
    Drawing::new(manner.policy, machine.harts(), manner.seed, manner.calm)
}

/// Draws the next event of a machine whose run goes on, and makes it.
#[inline(always)]
fn draw_event(machine: &mut Machine, drawing: &mut Drawing) -> MadeEvent
    requires limits { InRange machine.old.setting.limits }
    requires unended { end_of machine.old.setting (history machine.old.setting machine.old.log) ≡ Unended }
    requires drawn { IsOnAWay machine.old drawing.old }
    ensures made { machine.new ≡ record machine.old { log = machine.old.log ++ result.entry ∷ [] } }
    ensures drawn { GoesOn machine.old drawing.old machine.new drawing.new }
    ensures inside { let before = history machine.old.setting machine.old.log in
        result.left_inside
        ≡ leaves_inside machine.old.setting before result.entry.hart.0 result.entry.kind }
    ensures overtakes { let before = history machine.old.setting machine.old.log in
        result.overtakes
        ≡ overtakes machine.old.setting before result.entry.hart.0 result.entry.kind }
{
    match go_on(machine, drawing) {
        Some(entry) => MadeEvent {
            entry,
            left_inside: false,
            overtakes: false,
        },
        None => draw_next(machine, drawing),
    }
}

/// Makes the event by which the last hart goes on by its credit, where it does, and answers its entry; else
/// None, and nothing changes.
#[inline(always)]
fn go_on(machine: &mut Machine, drawing: &mut Drawing) -> Option<Entry>
    requires limits { InRange machine.old.setting.limits }
    requires unended { end_of machine.old.setting (history machine.old.setting machine.old.log) ≡ Unended }
    requires drawn { IsOnAWay machine.old drawing.old }
    ensures made { IfSome result (λ e. machine.new ≡ record machine.old { log = machine.old.log ++ e ∷ [] }) }
    ensures drawn { IfSome result (λ e. GoesOn machine.old drawing.old machine.new drawing.new) }
    ensures kind { IfSome result (λ e. e.kind ≡ kinds.Exec) }
    ensures loads_not { IfSome result (λ e. overtakes machine.old.setting (history machine.old.setting machine.old.log)
        e.hart.0 e.kind ≡ false) }
    ensures machine { IfNone result (machine.new ≡ machine.old) }
    ensures drawing { IfNone result (drawing.new ≡ drawing.old) }
    ensures none { IfNone result (draws.goes_on (scene_of machine.old) drawing.old ≡ false) }
{
    if drawing.credit == 0 {
        return None;
    }
    if is_owing(machine, drawing) {
        return None;
    }
    if (SeenHarts { machine }).is_inside(drawing.last) {
        return None;
    }
    match machine.step_freely(drawing.last) {
        Some(entry) => {
            drawing.go_on();
            Some(entry)
        }
        None => None,
    }
}

/// Whether the last hart means something that can be done right behind its event.
#[inline(always)]
fn is_owing(machine: &Machine, drawing: &Drawing) -> bool
    requires few { machine.now.setting.limits.harts ≤ 8 }
    requires run { IsBlockRun machine.now.setting machine.now.log }
    requires hart { drawing.now.last.0 < machine.now.setting.limits.harts }
    ensures { result ≡ is_some (draws.aim_behind (scene_of machine.now) drawing.now) }
{
    drawing.aim_behind(&SeenHarts { machine }).is_some()
}

/// Draws the next event by priorities or by a word, and makes it.
#[inline(never)]
fn draw_next(machine: &mut Machine, drawing: &mut Drawing) -> MadeEvent
    requires limits { InRange machine.old.setting.limits }
    requires unended { end_of machine.old.setting (history machine.old.setting machine.old.log) ≡ Unended }
    requires drawn { IsOnAWay machine.old drawing.old }
    requires apart { draws.goes_on (scene_of machine.old) drawing.old ≡ false }
    ensures made { machine.new ≡ record machine.old { log = machine.old.log ++ result.entry ∷ [] } }
    ensures drawn { GoesOn machine.old drawing.old machine.new drawing.new }
    ensures inside { let before = history machine.old.setting machine.old.log in
        result.left_inside
        ≡ leaves_inside machine.old.setting before result.entry.hart.0 result.entry.kind }
    ensures overtakes { let before = history machine.old.setting machine.old.log in
        result.overtakes
        ≡ overtakes machine.old.setting before result.entry.hart.0 result.entry.kind }
{
    let Some(event) = drawing.next_drawn(&SeenHarts { machine }) else {
        unreachable!()
    };
    let left_inside = leaves_inside(machine, event);
    let overtakes = overtakes(machine, event);
    match machine.step(event.hart, event.choice) {
        Ok(entry) => MadeEvent {
            entry,
            left_inside,
            overtakes,
        },
        Err(_) => unreachable!(),
    }
}

/// How many stores wait on a hart.
fn waiting_on(machine: &Machine, hart: Hart) -> u8
    requires { hart.0 < machine.now.setting.limits.harts }
    ensures count { result ≡ length (waiting hart.0 (history machine.now.setting machine.now.log)) }
    ensures few { result ≤ 8 }
{
    machine.hart(hart).buffer.len()
}

/// Whether a thread leaves its hart by an event, inside a good sequence as the hart sees memory.
fn leaves_inside(machine: &Machine, event: DrawnEvent) -> bool
    requires few { machine.now.setting.limits.harts ≤ 8 }
    requires run { IsBlockRun machine.now.setting machine.now.log }
    requires hart { event.hart.0 < machine.now.setting.limits.harts }
    ensures { let m = machine.now in
        result ≡ leaves_inside m.setting (history m.setting m.log) event.hart.0 (kind_of event.choice) }
{
    event.choice.kind().is_preempt() && SeenHarts { machine }.is_inside(event.hart)
}

/// Whether an event is a load that its hart executes while stores of it wait.
fn overtakes(machine: &Machine, event: DrawnEvent) -> bool
    requires { event.hart.0 < machine.now.setting.limits.harts }
    ensures { let m = machine.now in
        result ≡ overtakes m.setting (history m.setting m.log) event.hart.0 (kind_of event.choice) }
{
    event.choice.kind().is_instruction()
        && machine.hart(event.hart).buffer.len() != 0
        && loads_next(machine, event.hart)
}

/// Whether the next instruction of the thread on a hart only reads memory.
fn loads_next(machine: &Machine, hart: Hart) -> bool
    requires { hart.0 < machine.now.setting.limits.harts }
    ensures { result ≡ option_map_or loads
        (effect_here (here_in_history machine.now.setting (history machine.now.setting machine.now.log) hart.0)) false }
{
    match machine.next_effect(hart) {
        Some(effect) => loads(&effect),
        None => false,
    }
}

/// Whether an instruction with this effect only reads memory.
fn loads(effect: &Effect) -> bool
    ensures { result ≡ loads effect.now }
{
    match asks(effect).access {
        Some(access) => !access.is_write,
        None => false,
    }
}

/// Whether the run goes on: it hasn't ended, and the log isn't full.
fn goes_on(machine: &Machine) -> bool
    ensures { IsTrue result
        ↔ (end_of machine.now.setting (history machine.now.setting machine.now.log) ≡ Unended) }
{
    machine.end() == End::Unended
}
