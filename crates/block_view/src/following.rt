//! The restartable sequences of a log, told as a machine makes its entries, and its acts, counted so.

ghost use Rattle.std.specs.Prelude.{◌≡◌, [], IfOk, OnOk, option_to_list};
ghost use Rattle.mach_types.specs.Limits.{InRange};
ghost use Rattle.mach_types.specs.declared.events.Entry.{Entry};
ghost use Rattle.block_model.specs.Deciding.{event, history};
ghost use Rattle.block_model.specs.Run.{IsBlockRun};
ghost use Rattle.block_model.specs.Setting.{Seen};
ghost use Rattle.block_view.specs.Counters.{AreCounts, HasNextCounted, IsCountOf, kept_counts};
ghost use Rattle.block_view.specs.Following.{HasNextFollowed, IsFollowing};
ghost use Rattle.block_view.specs.Ledgers.{kept_in};
ghost use Rattle.block_view.specs.Passing.{IsMadeAgain};
ghost use Rattle.block_view.specs.Turns.{acts_left_open, turns};

use crate::counter::Counter;
use crate::forms::Act;
use crate::ledger::Ledger;
use crate::passing::{Passed, inside};
use crate::tally::Counts;
use crate::turns::Turn;
use crate::viewing::close;
use mach_types::Hart;
use machine_core::Machine;
use std::alloc::{AllocError, Global};

impl Ledger {
    /// That of the log of a machine with so many harts that has made no entry. It errs only for want of memory.
    pub fn new(alloc: Global, harts: u8) -> Result<Ledger, AllocError>
        ensures { (m : Seen) → m.setting.limits.harts ≡ harts → m.log ≡ []
            → IfOk result (λ ledger. IsFollowing m (kept_in ledger)) }
    {
        Ledger::empty(alloc, harts)
    }

    /// Takes one entry more that a machine has made, of which this is seen, and answers what it makes of the sequences: at most one begins
    /// or ends. The ledger must follow the machine's log before the entry; then it follows that after it. It lets go of acts that no
    /// sequence needs any more, so it takes no memory in proportion to the log.
    ///
    /// It errs only for want of memory.
    pub fn follow(&mut self, passed: &Passed) -> Result<Option<Turn>, AllocError>
        requires { HasNextFollowed (kept_in self.old) passed.now }
        ensures follows { (m m' : Seen) (entry : Entry) → IsFollowing m (kept_in self.old)
            → IsMadeAgain m m' entry passed.now → OnOk result (IsFollowing m' (kept_in self.new)) }
        ensures turn { (m m' : Seen) (entry : Entry) → IsFollowing m (kept_in self.old)
            → IsMadeAgain m m' entry passed.now
            → IfOk result (λ turn. let before = history m.setting m.log in
            option_to_list turn ≡ turns m.setting (event m.setting before entry) before) }
    {
        if self.passes_by(passed) {
            return Ok(None);
        }
        let turn = self.note(passed)?;
        self.let_go();
        Ok(turn)
    }

    /// The sequences that no entry of the log of a machine with so many harts has ended, in the order of their first entries, each with the
    /// way that it ended where the log does. The ledger must follow the log.
    ///
    /// It errs only for want of memory.
    pub fn ends(
        mut self,
        alloc: Global,
        machine: &Machine,
        harts: u8,
    ) -> Result<Vec<Act>, AllocError>
        requires harts { harts ≡ machine.now.setting.limits.harts }
        requires follows { IsFollowing machine.now (kept_in self) }
        ensures { IfOk result (λ acts. acts.items
            ≡ acts_left_open machine.now.setting (history machine.now.setting machine.now.log)) }
    {
        close(&mut self, machine, harts);
        self.open_acts(alloc)
    }
}

impl Counter {
    /// That of the log of a machine with so many harts that has made no entry. It errs only for want of memory.
    pub fn new(alloc: Global, harts: u8) -> Result<Counter, AllocError>
        ensures { (m : Seen) → m.setting.limits.harts ≡ harts → m.log ≡ []
            → IfOk result (λ counter. IsCountOf m (kept_counts counter)) }
    {
        Counter::empty(alloc, harts)
    }

    /// Takes one entry more that a machine has made, of which this is seen. The counter must count the acts of the
    /// machine's log before the entry; then it counts those of the log after it.
    ///
    /// It errs only for want of memory.
    pub fn follow(&mut self, passed: &Passed) -> Result<(), AllocError>
        requires { HasNextCounted (kept_counts self.old) passed.now }
        ensures { (m m' : Seen) (entry : Entry) → IsCountOf m (kept_counts self.old)
            → IsMadeAgain m m' entry passed.now → OnOk result (IsCountOf m' (kept_counts self.new)) }
    {
        self.note(passed)
    }

    /// The counts of each hart of a machine with so many, by its log. The counter must count the acts of that.
    ///
    /// It errs only for want of memory.
    pub fn counts(
        &self,
        alloc: Global,
        machine: &Machine,
        harts: u8,
    ) -> Result<Vec<Counts>, AllocError>
        requires limits { InRange machine.now.setting.limits }
        requires run { IsBlockRun machine.now.setting machine.now.log }
        requires harts { harts ≡ machine.now.setting.limits.harts }
        requires counted { IsCountOf machine.now (kept_counts self.now) }
        ensures { IfOk result (λ counts. AreCounts machine.now.setting machine.now.log counts.items) }
    {
        let mut counts = Vec::new(alloc);
        for hart in 0..harts {
            let inside = inside(machine, Hart(hart)).is_some();
            counts.push(self.harts[usize::from(hart)].counts_at_end(inside))?;
        }
        Ok(counts)
    }
}
