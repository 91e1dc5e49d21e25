//! A fact that there may be.

ghost use Rattle.std.specs.Prelude.{◌≡◌, ◌++◌, OnOk, option_to_list};

use fact_types::Fact;
use std::alloc::AllocError;

/// Appends a fact, if there is one.
pub(crate) fn push_if(facts: &mut Vec<Fact>, fact: Option<Fact>) -> Result<(), AllocError>
    ensures { OnOk result (facts.new.items ≡ facts.old.items ++ option_to_list fact) }
{
    if let Some(fact) = fact {
        facts.push(fact)?;
    }
    Ok(())
}
