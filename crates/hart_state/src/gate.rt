//! Which instructions may be executed while stores wait.

ghost use Rattle.std.specs.Prelude.{◌≡◌};
ghost use Rattle.std.specs.Option.{option_copied};
ghost use Rattle.rv_inst.specs.Class as class;
ghost use Rattle.rv_inst.specs.Execution as execution;

use mach_types::{STORE_BUFFER_CAPACITY, Why};
use rv_inst::{Effect, asks};

/// Whether an instruction may be executed only where no store of its hart waits.
fn wants_empty(effect: &Effect) -> bool
    ensures { result ≡ class.wants_empty effect.now }
{
    asks(effect).wants_empty
}

/// Whether an instruction is a plain store.
fn is_plain_store(effect: &Effect) -> bool
    ensures { result ≡ class.is_plain_store effect.now }
{
    asks(effect).is_plain_store
}

/// Why an instruction with this effect may not be executed where so many stores of its hart wait.
pub fn store_gate(waiting: u8, effect: Option<&Effect>, faults: bool) -> Option<Why>
    ensures { result ≡ execution.instruction_gate waiting (option_copied effect.entry) faults }
{
    if waiting == 0 {
        return None;
    }
    if faults || effect.is_some_and(wants_empty) {
        return Some(Why::Waiting);
    }
    if waiting >= STORE_BUFFER_CAPACITY && effect.is_some_and(is_plain_store) {
        return Some(Why::FullBuffer);
    }
    None
}
