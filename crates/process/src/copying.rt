//! Parts that are made as others.

ghost use Rattle.std.specs.Prelude.{◌≡◌, length};
ghost use Rattle.std.specs.Bool.{OnFalse, OnTrue};
ghost use Rattle.block_model.specs.Plain.{Plain};
ghost use Rattle.block_model.specs.Setting.{Setting};
ghost use Rattle.process.specs.Copies.{IsCopy};
ghost use Rattle.process.specs.Refinement.{IsTied};
ghost use Rattle.process.specs.declared.parts.Parts.{Parts as Copied};

use crate::parts::Parts;
use hart_state::HartState;

/// Makes each hart as the other one of the same number.
fn copy_harts(harts: &mut [HartState], others: &[HartState])
    requires { length harts.old ≡ length others.now }
    ensures { harts.new ≡ others.now }
{
    for index in 0..harts.len() {
        harts[index].copy_from(&others[index]);
    }
}

/// The same of all harts of a machine.
fn copy_all(harts: &mut Vec<HartState>, others: &[HartState])
    requires { length harts.old.items ≡ length others.now }
    ensures { harts.new.items ≡ others.now }
{
    copy_harts(harts, others);
}

impl Parts {
    /// Makes the parts as others and answers true, where both have as many harts, and the same pages in the
    /// same order, as parts of one program have until one maps pages or removes them. Else it answers false,
    /// and nothing changes. It takes no memory.
    pub fn copy_from(&mut self, other: &Parts) -> bool
        ensures copied { OnTrue result (IsCopy other.now self.new) }
        ensures unchanged { OnFalse result (self.new ≡ self.old) }
    {
        if self.harts.len() != other.harts.len() {
            return false;
        }
        if !self.pages.take_bytes_of(&other.pages) {
            return false;
        }
        copy_all(&mut self.harts, &other.harts);
        self.kernel.copy_from(&other.kernel);
        self.ended = other.ended;
        true
    }
}

/// A copy of parts stands wherever these stand.
pub fn copies_are_tied()
    ensures { (s : Setting) (p : Plain) (m m' : Copied) → IsTied s p m → IsCopy m m' → IsTied s p m' }
{}
