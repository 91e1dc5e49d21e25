//! Code with labels.

ghost use Rattle.std.specs.Prelude.{◌≡◌, ℕ, ◌%◌, ◌^◌, ◌<◌, ◌≤◌, ◌↔◌, [], ◌∷◌, ◌++◌, length};
ghost use Rattle.std.specs.Prelude.{slice_get, slice_set, None, Some, IsTrue, IfOk};
ghost use Rattle.std.specs.Prelude.{OnOk, OnErr, IsOkUnless};
ghost use Rattle.std.specs.Bool.{OnTrue, OnFalse};
ghost use Rattle.rv_asm.specs.Assembly.{empty, index_of, address_of, is_aimable};
ghost use Rattle.rv_asm.specs.Assembly.{first_unbound, first_too_far, AreAssembled};

use crate::code::{assemble, find_refusal};
use crate::fault::AsmFault;
use crate::item::Item;
use crate::labels::{bound_index, unbound_labels};
use rv_inst::Inst;
use std::alloc::{AllocError, Global};
use std::marker::Model;

/// So many items no vector holds: at 8 bytes and more each, they pass the largest size that an allocation can
/// have.
const TOO_MANY_ITEMS: usize = 1 << 60;

/// An assembler (own): it takes in words, and branches to labels, and binds labels to places between them.
///
/// A contract sees it as the address of its first word, its items and its labels.
#[derive(Drop)]
pub struct Asm {
    at: u64,
    items: Vec<Item>,
    labels: Vec<Option<usize>>,
}

impl Model for Asm {
    ghost use Rattle.rv_asm.specs.Assembly.{Assembly};

    ghost Value = { Assembly };

    ghost use Rattle.rv_asm.specs.Held.{IsHeld};

    ghost view = { λ a. record { at = a.at; items = a.items.items; labels = a.labels.items } };

    ghost invariant = { λ a. IsHeld (record { at = a.at; items = a.items.items; labels = a.labels.items }) };
}

impl Asm {
    ghost use Rattle.rv_asm.specs.Held.{IsAimable};

    /// An assembler of code that begins at the address `at`, with so many labels, none of them bound.
    ///
    /// The address is a multiple of 4 and below 2^37. The error is want of memory alone.
    pub fn new(alloc: Global, at: u64, labels: u32) -> Result<Asm, AllocError>
        requires aligned { at % 4 ≡ 0 }
        requires low { at < 2 ^ 37 }
        ensures { IfOk result (λ asm. asm ≡ empty at labels) }
    {
        let labels = unbound_labels(alloc, labels)?;
        Ok(Asm {
            at,
            items: Vec::new(alloc),
            labels,
        })
    }

    /// Appends an item. Where memory is short nothing changes.
    fn append(&mut self, item: Item) -> Result<(), AllocError>
        requires { IsAimable item }
        ensures ok { OnOk result (self.new ≡ record self.old { items = self.old.items ++ item ∷ [] }) }
        ensures err { OnErr result (self.new ≡ self.old) }
    {
        if self.items.len() >= TOO_MANY_ITEMS {
            return Err(AllocError);
        }
        self.items.push(item)?;
        Ok(())
    }

    /// Appends a word. The error is want of memory alone, and the assembler is then as it was.
    pub fn push(&mut self, word: u32) -> Result<(), AllocError>
        ensures ok { OnOk result
            (self.new ≡ record self.old { items = self.old.items ++ Item.Word word ∷ [] }) }
        ensures err { OnErr result (self.new ≡ self.old) }
    {
        self.append(Item::Word(word))
    }

    /// Binds label `n` to the place of the next word; false exactly where there is no such label or it is
    /// bound, and then nothing changes. Takes no memory.
    pub fn label(&mut self, n: u32) -> bool
        ensures free { IsTrue result ↔ (slice_get self.old.labels n ≡ Some None) }
        ensures bound { OnTrue result
            (self.new
            ≡ record self.old { labels = slice_set self.old.labels n (Some (length self.old.items)) }) }
        ensures refused { OnFalse result (self.new ≡ self.old) }
    {
        if n >= self.labels() || self.labels[n as usize].is_some() {
            return false;
        }
        self.labels[n as usize] = Some(self.items.len());
        true
    }

    /// Appends a JAL or a branch with registers below 32, which is to be aimed at label `n`, whatever
    /// distance it has.
    ///
    /// `UnboundLabel(n)` exactly where there is no such label; else the error is want of memory alone. On an
    /// error the assembler is as it was.
    pub fn branch(&mut self, inst: Inst, n: u32) -> Result<(), AsmFault>
        requires { IsTrue (is_aimable inst) }
        ensures no_label { (result ≡ Err (AsmFault.UnboundLabel n)) ↔ (length self.old.labels ≤ n) }
        ensures memory { n < length self.old.labels → IsOkUnless result AsmFault.NoMemory }
        ensures ok { OnOk result
            (self.new ≡ record self.old { items = self.old.items ++ Item.Aimed inst n ∷ [] }) }
        ensures err { OnErr result (self.new ≡ self.old) }
    {
        if n >= self.labels() {
            return Err(AsmFault::UnboundLabel(n));
        }
        self.append(Item::Aimed { inst, label: n })?;
        Ok(())
    }

    /// The number of labels. Takes no memory.
    pub fn labels(&self) -> u32
        ensures { result ≡ length self.now.labels }
    {
        self.labels.len() as u32
    }

    /// The address that label `n` is bound to; `None` exactly where there is no such label or it is unbound.
    /// Takes no memory.
    pub fn place(&self, n: u32) -> Option<u64>
        ensures { result ≡ address_of self.now.at (index_of self.now.labels n) }
    {
        match bound_index(&self.labels, n) {
            Some(index) => Some(self.at + 4 * index as u64),
            None => None,
        }
    }

    /// The bytes of the words, the low byte of each first, with each branch aimed at its label.
    ///
    /// `UnboundLabel(n)` exactly where n is the first used label that is unbound; else `TooFar(n)` exactly
    /// where n is that of the first branch that doesn't reach its label.
    pub fn finish(self, alloc: Global) -> Result<Vec<u8>, AsmFault>
        ensures unbound { (n : ℕ)
            → (result ≡ Err (AsmFault.UnboundLabel n)) ↔ (first_unbound self.labels self.items ≡ Some n) }
        ensures too_far { (n : ℕ) → (result ≡ Err (AsmFault.TooFar n))
            ↔ ((first_unbound self.labels self.items ≡ None)
            × (first_too_far self.labels 0 self.items ≡ Some n)) }
        ensures code { IfOk result (λ bytes. AreAssembled self.labels self.items bytes.items) }
    {
        if let Some(fault) = find_refusal(&self.items, &self.labels) {
            return Err(fault);
        }
        let bytes = assemble(alloc, &self.items, &self.labels)?;
        Ok(bytes)
    }
}
