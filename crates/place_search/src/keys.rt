//! The keys of the places that were visited, each with the number of its place.

ghost use Rattle.std.specs.Prelude.{◌≡◌, ◌∷◌, [], bytes_eq, IfOk, OnOk, OnErr};
ghost use Rattle.std.specs.Map.{lookup};
ghost use Rattle.place_search.specs.Preemptions.{IsPut};
ghost use Rattle.place_keys.specs.{Packed.packed, PartWords.parts_words};

use page_map::PageMap;
use place_keys::{pack, write_place};
use process::Parts;
use std::alloc::{AllocError, Global};
use std::collections::HashMap;
use std::marker::Model;

/// The keys of the places that were visited, each with the number of its place. Whole keys are compared.
#[derive(Drop)]
pub(crate) struct Keys {
    known: HashMap<Vec<u8>, u32>,
}

impl Model for Keys {
    ghost use Rattle.std.specs.Prelude.{List, ℕ, map};

    ghost Value = { List (List ℕ × ℕ) };

    ghost view = { λ k. map (λ entry. (entry.0.items, entry.1)) k.known.entries };
}

/// The key of the place at which these parts stand and the harts of this set owe their thread a signal, the pages against those at
/// the start.
pub(crate) fn key_of(
    alloc: Global,
    parts: &Parts,
    owed: u8,
    start: &PageMap,
) -> Result<Vec<u8>, AllocError>
    ensures { IfOk result (λ key. key.items ≡ packed (owed ∷ parts_words start.now parts.now)) }
{
    let mut words = Vec::new(alloc);
    words.push(u64::from(owed))?;
    write_place(&mut words, parts, start)?;
    let mut key = Vec::new(alloc);
    pack(&mut key, &words)?;
    Ok(key)
}

/// A copy of a key that takes no more memory than it has to.
fn copy_of(alloc: Global, key: &[u8]) -> Result<Vec<u8>, AllocError>
    ensures { IfOk result (λ copy. copy.items ≡ key.now) }
{
    let mut copy = Vec::with_capacity(alloc, key.len())?;
    copy.extend_from_slice(key)?;
    Ok(copy)
}

impl Keys {
    /// No keys.
    pub(crate) fn new(alloc: Global) -> Keys
        ensures { result ≡ [] }
    {
        Keys {
            known: HashMap::new(alloc),
        }
    }

    /// The number of the place that has a key.
    pub(crate) fn find(&self, key: &[u8]) -> Option<u32>
        ensures { result ≡ lookup (bytes_eq key.now) self.now }
    {
        self.known.get(key).copied()
    }

    /// Keeps a key with the number of its place, in place of the number that it had. Where memory is short nothing changes.
    pub(crate) fn put(&mut self, alloc: Global, key: &[u8], place: u32) -> Result<(), AllocError>
        ensures ok { OnOk result (IsPut key.now place self.old self.new) }
        ensures err { OnErr result (self.new ≡ self.old) }
    {
        let key = copy_of(alloc, key)?;
        let _before = self.known.insert(key, place)?;
        Ok(())
    }
}
