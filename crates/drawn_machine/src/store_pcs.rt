//! Which stores were executed, and which of them a load overtook: by the places of their instructions.

ghost use Rattle.std.specs.Prelude.{◌≡◌, nat_lt, length, IfOk, OnOk};
ghost use Rattle.drawn_machine.specs.{Overtaken.no_stores, Overtaken.pcs_of, Overtaken.stores_and, Overtaken.stores_with, PcSets.with_pcs};

use crate::hart_clock::{HartClock, Mark};
use crate::pc_set::PcSet;
use std::alloc::{AllocError, Global};

/// Plain stores, by the addresses of their instructions.
#[derive(Drop)]
pub struct StorePcs {
    /// Those that were executed, whether they entered memory or not.
    pub executed: PcSet,
    /// Those that were overtaken: their hart executed a load while they waited.
    pub overtaken: PcSet,
}

impl StorePcs {
    /// None. They take no memory.
    pub fn new(alloc: Global) -> StorePcs
        ensures { result ≡ no_stores }
    {
        StorePcs {
            executed: PcSet::new(alloc),
            overtaken: PcSet::new(alloc),
        }
    }

    /// A copy.
    pub fn copied(alloc: Global, stores: &StorePcs) -> Result<StorePcs, AllocError>
        ensures { IfOk result (λ copy. copy ≡ stores.now) }
    {
        Ok(StorePcs {
            executed: PcSet::copied(alloc, &stores.executed)?,
            overtaken: PcSet::copied(alloc, &stores.overtaken)?,
        })
    }

    /// Takes all of them out.
    pub(crate) fn clear(&mut self)
        ensures { self.new ≡ no_stores }
    {
        self.executed.clear();
        self.overtaken.clear();
    }

    /// Puts in those of others.
    pub fn add(&mut self, others: &StorePcs) -> Result<(), AllocError>
        ensures { OnOk result (self.new ≡ stores_and others.now self.old) }
    {
        self.executed.add(&others.executed)?;
        self.overtaken.add(&others.overtaken)
    }

    /// Counts an event of the instruction at a pc, before which its hart was as this clock says, and behind which so many of its
    /// stores wait: it may be a load that overtakes those that waited before it.
    pub(crate) fn count(
        &mut self,
        pc: u64,
        before: &HartClock,
        waiting: u8,
        overtakes: bool,
    ) -> Result<(), AllocError>
        ensures { OnOk result (self.new ≡ stores_with (nat_lt (length before.now.marks) waiting) pc overtakes
            (pcs_of before.now.marks) self.old) }
    {
        if before.marks().len() < usize::from(waiting) {
            self.executed.insert(pc)?;
        }
        if overtakes {
            insert_all(&mut self.overtaken, before.marks())?;
        }
        Ok(())
    }
}

/// Puts in the pcs of waiting stores.
fn insert_all(set: &mut PcSet, marks: &[Mark]) -> Result<(), AllocError>
    ensures { OnOk result (set.new ≡ with_pcs (pcs_of marks.now) set.old) }
{
    for mark in marks {
        set.insert(mark.pc)?;
    }
    Ok(())
}
