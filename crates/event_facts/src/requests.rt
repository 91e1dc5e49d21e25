//! Barriers: the requests that a hart takes, and the barriers that begin and return.

ghost use Rattle.std.specs.Prelude.{◌≡◌, ◌<◌, ◌++◌, ◌∷◌, [], OnOk, option_to_list};
ghost use Rattle.mach_types.specs.Events.{choice_of};
ghost use Rattle.event_facts.specs.Requests.{begun_facts, request_facts};
ghost use Rattle.event_facts.specs.Telling.{here_on};

use fact_types::{Fact, SystemCall};
use hart_state::HartState;
use mach_types::{Entry, Kind};
use machine_core::Machine;
use std::alloc::AllocError;

/// Appends that a hart takes the requests that are pending there.
fn push_taken(facts: &mut Vec<Fact>, state: &HartState) -> Result<(), AllocError>
    ensures { OnOk result (facts.new.items
        ≡ facts.old.items ++ Fact.RequestsTaken state.now.requests state.now.restart ∷ []) }
{
    facts.push(Fact::RequestsTaken {
        harts: state.requests,
        restart: state.restart,
    })?;
    Ok(())
}

/// Appends that a barrier returns.
fn push_returns(facts: &mut Vec<Fact>) -> Result<(), AllocError>
    ensures { OnOk result (facts.new.items ≡ facts.old.items ++ Fact.BarrierReturns ∷ []) }
{
    facts.push(Fact::BarrierReturns)?;
    Ok(())
}

/// Appends what an entry, the next event of its hart, is to barriers: it takes requests, or a barrier returns.
pub(crate) fn push_requests(
    facts: &mut Vec<Fact>,
    machine: &Machine,
    entry: Entry,
) -> Result<(), AllocError>
    requires { entry.hart.0 < machine.now.setting.limits.harts }
    ensures { OnOk result (facts.new.items ≡ facts.old.items
        ++ request_facts (choice_of entry) (here_on machine.now entry.hart.0)) }
{
    match entry.kind {
        Kind::Take => push_taken(facts, machine.hart(entry.hart)),
        Kind::Done => push_returns(facts),
        _ => Ok(()),
    }
}

/// The barrier that a call began, where its thread waits in one after it.
pub(crate) fn begun(call: Option<SystemCall>, waits: Option<u8>) -> Option<Fact>
    ensures { option_to_list result ≡ begun_facts call waits }
{
    match (call, waits) {
        (Some(_), Some(harts)) => Some(Fact::BarrierBegins { harts }),
        (None, _) | (Some(_), None) => None,
    }
}
