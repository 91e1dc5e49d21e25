//! The words of the items, and why they can't be made.

ghost use Rattle.std.specs.Prelude.{◌≡◌, ◌^◌, ◌≤◌, None, IfOk, All, length};
ghost use Rattle.rv_asm.specs.Assembly.{unbound_label, far_label, first_unbound, first_too_far};
ghost use Rattle.rv_asm.specs.Assembly.{refused_by, IsWordOf, AreAssembled};
ghost use Rattle.rv_asm.specs.Held.{IsAimable, AreWithin};

use crate::distance::{aim, distance_to, reaches};
use crate::encoder::encode;
use crate::fault::AsmFault;
use crate::item::Item;
use crate::labels::bound_index;
use std::alloc::{AllocError, Global};

/// The label of an item, where it is unbound.
fn find_unbound(item: &Item, labels: &[Option<usize>]) -> Option<u32>
    ensures { result ≡ unbound_label labels.now item.now }
{
    match *item {
        Item::Word(_) => None,
        Item::Aimed { label, .. } => match bound_index(labels, label) {
            None => Some(label),
            Some(_) => None,
        },
    }
}

/// The label of an item, where it is bound and the item at this index doesn't reach it.
fn find_far(item: &Item, index: usize, labels: &[Option<usize>]) -> Option<u32>
    requires here { index ≤ 2 ^ 60 }
    requires within { AreWithin (2 ^ 60) labels.now }
    ensures { result ≡ far_label labels.now index item.now }
{
    match *item {
        Item::Word(_) => None,
        Item::Aimed { inst, label } => match bound_index(labels, label) {
            None => None,
            Some(to) if reaches(inst, distance_to(index, to)) => None,
            Some(_) => Some(label),
        },
    }
}

/// The first label in the order of the items that is used and unbound.
fn find_first_unbound(items: &[Item], labels: &[Option<usize>]) -> Option<u32>
    ensures { result ≡ first_unbound labels.now items.now }
{
    for item in items {
        if let Some(label) = find_unbound(item, labels) {
            return Some(label);
        }
    }
    None
}

/// The label of the first item that doesn't reach it.
fn find_first_too_far(items: &[Item], labels: &[Option<usize>]) -> Option<u32>
    requires few { length items.now ≤ 2 ^ 60 }
    requires within { AreWithin (2 ^ 60) labels.now }
    ensures { result ≡ first_too_far labels.now 0 items.now }
{
    for (index, item) in items.iter().enumerate() {
        if let Some(label) = find_far(item, index, labels) {
            return Some(label);
        }
    }
    None
}

/// Why items can't be assembled: an unbound label before one that is too far.
pub fn find_refusal(items: &[Item], labels: &[Option<usize>]) -> Option<AsmFault>
    requires few { length items.now ≤ 2 ^ 60 }
    requires within { AreWithin (2 ^ 60) labels.now }
    ensures { result
        ≡ refused_by (first_unbound labels.now items.now) (first_too_far labels.now 0 items.now) }
{
    if let Some(label) = find_first_unbound(items, labels) {
        return Some(AsmFault::UnboundLabel(label));
    }
    match find_first_too_far(items, labels) {
        Some(label) => Some(AsmFault::TooFar(label)),
        None => None,
    }
}

/// The word of an item.
fn word_of(item: &Item, index: usize, labels: &[Option<usize>]) -> u32
    requires here { index ≤ 2 ^ 60 }
    requires within { AreWithin (2 ^ 60) labels.now }
    requires aimable { IsAimable item.now }
    requires bound { unbound_label labels.now item.now ≡ None }
    requires near { far_label labels.now index item.now ≡ None }
    ensures { IsWordOf labels.now index item.now result }
{
    match *item {
        Item::Word(word) => word,
        Item::Aimed { inst, label } => {
            let to = bound_index(labels, label).unwrap();
            encode(&aim(inst, distance_to(index, to))).unwrap()
        }
    }
}

/// The bytes of the items' words.
pub fn assemble(
    alloc: Global,
    items: &[Item],
    labels: &[Option<usize>],
) -> Result<Vec<u8>, AllocError>
    requires few { length items.now ≤ 2 ^ 60 }
    requires within { AreWithin (2 ^ 60) labels.now }
    requires aimable { All IsAimable items.now }
    requires bound { first_unbound labels.now items.now ≡ None }
    requires near { first_too_far labels.now 0 items.now ≡ None }
    ensures { IfOk result (λ bytes. AreAssembled labels.now items.now bytes.items) }
{
    let mut bytes = Vec::with_capacity(alloc, 4 * items.len())?;
    for (index, item) in items.iter().enumerate() {
        let word = word_of(item, index, labels);
        bytes.extend_from_slice(&word.to_le_bytes())?;
    }
    Ok(bytes)
}
