//! Labels, and the words that they are bound to.

ghost use Rattle.std.specs.Prelude.{◌≡◌, IfOk, replicate, None};
ghost use Rattle.rv_asm.specs.Assembly.{index_of};

use std::alloc::{AllocError, Global};

/// Labels of which none is bound.
pub fn unbound_labels(alloc: Global, count: u32) -> Result<Vec<Option<usize>>, AllocError>
    ensures { IfOk result (λ labels. labels.items ≡ replicate count None) }
{
    let mut labels = Vec::with_capacity(alloc, count as usize)?;
    for _ in 0..count {
        labels.push(None)?;
    }
    Ok(labels)
}

/// The index of the word that a label is bound to; `None` exactly where there is no such label or it is
/// unbound.
pub fn bound_index(labels: &[Option<usize>], label: u32) -> Option<usize>
    ensures { result ≡ index_of labels.now label }
{
    match labels.get(label as usize) {
        Some(bound) => *bound,
        None => None,
    }
}
