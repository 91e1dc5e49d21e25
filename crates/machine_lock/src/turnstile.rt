//! The calls of a turnstile.
ghost use Rattle.std.specs.Prelude.{◌≡◌, ◌+◌, ◌-◌, ◌<◌, ◌≤◌, true, false, [], ◌++◌, length, IfOk, Some};
ghost use Rattle.machine_lock.specs.Steps.{Got, Longer};
ghost use Rattle.machine_lock.specs.Rule.{Runs};
ghost use Rattle.machine_lock.specs.Numbers.{Apart, Owns, merge, numbers_below};
ghost use Rattle.machine_lock.specs.Passes.{IsSound};
ghost use Rattle.machine_lock.specs.Turnstiles.{IsOf, turnstile_of, origin_of, start_of, seats_of};

use crate::chronicle::Meaning;
use crate::history::Origin;
use crate::lock::Turnstile;
use crate::pass::Pass;
use crate::plays::{Count, Cut, Draw, Give, Glue, Learn, Look};
use atomic_table::Table;
use crossbeam_utils::Backoff;
use std::alloc::{AllocError, Global};
use std::marker::Brand;
use std::snapshot::Snapshot;
use std::sync::Wait;

/// How many looks in a row a pass spins between, before it gives its processor away between looks. (own)
const SPINS: u32 = 32;

/// Waits a moment after so many looks, and answers how many they are with this one.
///
/// At first it makes one pause, by a backoff that is made new for each look, so that a turn that comes soon
/// is seen at once. Later it snoozes by the backoff of the wait, which gives the processor away, since the
/// turn may be that of a worker that isn't running.
fn pause(looks: u32, wait: &Backoff) -> u32 {
    if looks < SPINS {
        Backoff::new().spin();
        looks + 1
    } else {
        wait.snooze();
        looks
    }
}

/// The machine, while the turn is out.
pub struct Turn<M> {
    /// The machine.
    pub machine: M,
}

impl<M: Meaning> Turnstile<M> {
    /// Puts a machine in. The pass has all the parts.
    ///
    /// Where memory runs out, the machine is dropped.
    pub fn new(alloc: Global, machine: M, seats: u8) -> Result<(Turnstile<M>, Pass<M>), AllocError>
    where
        M: Drop,
        requires seats { 1 ≤ seats }
        ensures start { IfOk result (λ r. start_of r.0 ≡ machine) }
        ensures seats { IfOk result (λ r. seats_of r.0 ≡ seats) }
        ensures pass { IfOk result (λ r. r.1 ≡ record {
          turnstile = Some (turnstile_of r.0);
          seen = M.log machine;
          mine = [];
          parts = seats;
          out = false;
        }) }
    {
        let origin = Origin {
            start: Snapshot::of(&machine),
            seats,
        };
        let mut slots = Vec::with_capacity(alloc, 1)?;
        slots.push(Some(machine))?;
        match Table::new(alloc, &[0, 0], slots, &origin) {
            Ok((table, seat)) => Ok((Turnstile { table }, Pass { seat })),
            Err(_) => Err(AllocError),
        }
    }

    /// Moves so many parts into a new pass, for another worker.
    pub fn split(&self, pass: &mut Pass<M>, parts: u8) -> Pass<M>
        requires own { IsOf self.now pass.old }
        requires idle { pass.old.out ≡ false }
        requires parts { (1 ≤ parts) × (parts < pass.old.parts) }
        ensures left { pass.new ≡ record pass.old { parts = pass.old.parts - parts } }
        ensures given { result ≡ record pass.old { mine = []; parts = parts } }
        ensures sound { IsSound pass.new }
    {
        self.cut::<Brand>(pass, parts)
    }

    fn cut<K: Count>(&self, pass: &mut Pass<M>, parts: u8) -> Pass<M>
        requires own { IsOf self.now pass.old }
        requires idle { pass.old.out ≡ false }
        requires parts { (1 ≤ parts) × (parts < pass.old.parts) × (parts ≡ K.parts) }
        ensures left { pass.new ≡ record pass.old { parts = pass.old.parts - parts } }
        ensures given { result ≡ record pass.old { mine = []; parts = parts } }
        ensures sound { IsSound pass.new }
    {
        Pass {
            seat: self.table.shared.split_seat::<Cut<K>>(&mut pass.seat),
        }
    }

    /// Waits for the turn of the pass, and takes the machine out.
    pub fn take_turn<R: Wait>(&self, rt: &R, pass: &mut Pass<M>) -> Turn<M>
        requires own { IsOf self.now pass.old }
        requires idle { pass.old.out ≡ false }
        ensures pass { pass.new ≡ record pass.old { seen = M.log result.machine; out = true } }
        ensures got { Got M.setting M.log M.next (origin_of self.now) pass.old.seen result.machine }
    {
        let ticket = self.table.shared.fetch_add::<Draw>(&mut pass.seat, 0, 1);
        let wait = Backoff::new();
        let mut looks = 0;
        for _ in rt.forever() {
            if self.table.shared.load::<Look>(&mut pass.seat, 1) == ticket {
                let old = self.table.shared.exchange(&mut pass.seat, 0, None);
                let Some(machine) = old else { unreachable!() };
                return Turn { machine };
            }
            looks = pause(looks, &wait);
        }
        unreachable!()
    }

    /// Gives the machine back. The entries that its log has gained are the pass's own.
    pub fn give_turn(&self, pass: &mut Pass<M>, turn: Turn<M>)
        requires own { IsOf self.now pass.old }
        requires out { pass.old.out ≡ true }
        requires setting { M.setting turn.machine ≡ M.setting (start_of self.now) }
        requires legal { Runs M.setting M.log M.next (origin_of self.now) pass.old.seen (M.log turn.machine) }
        ensures pass { pass.new ≡ record pass.old {
          seen = M.log turn.machine;
          mine = pass.old.mine ++ numbers_below (length pass.old.seen) (length (M.log turn.machine));
          out = false;
        } }
    {
        let Turn { machine } = turn;
        let old = self.table.shared.exchange(&mut pass.seat, 0, Some(machine));
        let None = old else { unreachable!() };
        let _ = self.table.shared.fetch_add::<Give>(&mut pass.seat, 1, 1);
    }

    /// Adds the parts and the numbers of another pass, and keeps the log of the one that saw more.
    pub fn join(&self, pass: &mut Pass<M>, other: Pass<M>)
        requires own { IsOf self.now pass.old × IsOf self.now other }
        requires idle { (pass.old.out ≡ false) × (other.out ≡ false) }
        ensures pass { pass.new ≡ record pass.old {
          seen = pass.new.seen;
          mine = merge pass.old.mine other.mine;
          parts = pass.old.parts + other.parts;
        } }
        ensures seen { Longer M.setting M.log M.next (origin_of self.now)
            pass.old.seen other.seen pass.new.seen }
        ensures apart { Apart pass.old.mine other.mine }
        ensures sound { IsSound pass.new }
    {
        let Pass { seat } = other;
        self.table.shared.join_seat::<Glue>(&mut pass.seat, seat);
        let _ = self.table.shared.load::<Learn>(&mut pass.seat, 0);
    }

    /// Takes the machine out for good, once all other passes were joined into this one.
    pub fn close(self, pass: Pass<M>) -> M
        requires own { IsOf self pass }
        requires idle { pass.out ≡ false }
        requires all { pass.parts ≡ seats_of self }
        ensures got { Got M.setting M.log M.next (origin_of self) pass.seen result }
        ensures mine { Owns pass.mine (length (M.log result)) }
    {
        let Turnstile { table } = self;
        let Pass { seat } = pass;
        let mut closed = table.close_with(seat);
        let last = closed.take(0);
        closed.free();
        let Some(machine) = last else { unreachable!() };
        machine
    }
}
