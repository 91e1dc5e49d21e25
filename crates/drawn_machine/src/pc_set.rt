//! Sets of places in the code.

ghost use Rattle.std.specs.Prelude.{◌≡◌, [], length, IfOk, OnOk};
ghost use Rattle.std.specs.Bool.{OnTrue};
ghost use Rattle.drawn_machine.specs.PcSets.{with_pc, with_pcs};

use std::alloc::{AllocError, Global};
use std::marker::Model;

/// How many places are kept of those that were found last.
const HINTS: usize = 16;

/// A set of addresses of instructions. It is seen as the list of them, by rising number.
#[derive(Drop)]
pub struct PcSet {
    pcs: Vec<u64>,
    /// Where a pc was found last, by its last bits: what stands there is looked at before a search.
    hints: [usize; HINTS],
}

impl Model for PcSet {
    ghost use Rattle.std.specs.Prelude.{List, ℕ};
    ghost use Rattle.drawn_machine.specs.PcSets.{IsRising};

    ghost Value = { List ℕ };

    ghost view = { λ s. s.pcs.items };

    ghost invariant = { λ s. IsRising s.pcs.items };
}

impl PcSet {
    /// The empty set. It takes no memory.
    pub(crate) fn new(alloc: Global) -> PcSet
        ensures { result ≡ [] }
    {
        PcSet {
            pcs: Vec::new(alloc),
            hints: [0; HINTS],
        }
    }

    /// A copy of a set.
    pub fn copied(alloc: Global, set: &PcSet) -> Result<PcSet, AllocError>
        ensures { IfOk result (λ copy. copy ≡ set.now) }
    {
        let mut pcs = Vec::with_capacity(alloc, set.pcs.len())?;
        pcs.extend_from_slice(&set.pcs)?;
        Ok(PcSet {
            pcs,
            hints: [0; HINTS],
        })
    }

    /// How many there are.
    pub fn len(&self) -> usize
        ensures { result ≡ length self.now }
    {
        self.pcs.len()
    }

    /// Takes all of them out, and keeps the room.
    pub(crate) fn clear(&mut self)
        ensures { self.new ≡ [] }
    {
        self.pcs.clear();
    }

    /// Puts one in.
    pub(crate) fn insert(&mut self, pc: u64) -> Result<(), AllocError>
        ensures { OnOk result (self.new ≡ with_pc pc self.old) }
    {
        let hint = (pc / 4) as usize % HINTS;
        if !self.has_at(self.hints[hint], pc) {
            self.hints[hint] = self.find_or_insert(pc)?;
        }
        Ok(())
    }

    /// Whether a pc stands at a place: then it is in the set.
    fn has_at(&self, place: usize, pc: u64) -> bool
        ensures { OnTrue result (with_pc pc self.now ≡ self.now) }
    {
        place < self.pcs.len() && self.pcs[place] == pc
    }

    /// Puts one in, and answers where it stands.
    fn find_or_insert(&mut self, pc: u64) -> Result<usize, AllocError>
        ensures { OnOk result (self.new ≡ with_pc pc self.old) }
    {
        match self.pcs.binary_search(&pc) {
            Ok(place) => Ok(place),
            Err(place) => {
                self.pcs.insert(place, pc)?;
                Ok(place)
            }
        }
    }

    /// Puts in those of another set.
    pub fn add(&mut self, others: &PcSet) -> Result<(), AllocError>
        ensures { OnOk result (self.new ≡ with_pcs others.now self.old) }
    {
        for pc in &others.pcs {
            self.insert(*pc)?;
        }
        Ok(())
    }
}
