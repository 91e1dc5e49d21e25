//! The kernel's writes in an event.

ghost use Rattle.std.specs.Prelude.{◌≡◌, ◌++◌, OnOk, map};
ghost use Rattle.event_facts.specs.Facts as spec;

use fact_types::Fact;
use mach_types::Write;
use std::alloc::AllocError;

/// The fact of a write of the kernel in a line.
fn kernel_fact(write: Write, line: u32) -> Fact
    ensures { result ≡ spec.kernel_fact line write }
{
    match write {
        Write::Stored(store) => Fact::KernelWrote { store, line },
        Write::Zeroed { at, length } => Fact::Zeroed { at, length },
    }
}

/// Appends the writes that the kernel made in the event of a line, in order. It errs only for want of memory.
pub(crate) fn push_kernel_writes(
    facts: &mut Vec<Fact>,
    writes: &[Write],
    line: u32,
) -> Result<(), AllocError>
    ensures { OnOk result (facts.new.items
        ≡ facts.old.items ++ map (spec.kernel_fact line) writes.now) }
{
    for write in writes {
        facts.push(kernel_fact(*write, line))?;
    }
    Ok(())
}
