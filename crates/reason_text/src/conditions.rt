//! The words for a condition of an event that fails, and for how a run has ended.

use block_model::Refused;
use mach_types::{End, Why};
use std::fmt;

/// Why an event isn't allowed, for a person.
#[derive(Drop)]
pub(crate) struct Cause(pub(crate) Refused);

impl fmt::Display for Cause {
    fn fmt<W: fmt::Write>(&self, f: &mut fmt::Formatter<W>) -> fmt::Result {
        match self.0 {
            Refused::Ended(End::Exit(status)) => write!(f, "the process has exited with {status}"),
            Refused::Ended(End::Killed(signal)) => {
                write!(f, "signal {signal} has killed the process")
            }
            Refused::Ended(_) => f.write_str("each live thread waits in a futex"),
            Refused::Full => f.write_str("the log has as many lines as --steps allows"),
            Refused::NotEnabled(why) => f.write_str(condition(why)),
        }
    }
}

/// What is the case where a condition fails.
fn condition(why: Why) -> &'static str {
    match why {
        Why::NoHart => "the machine has no such hart; --harts says how many there are",
        Why::Idle => "no thread runs on the hart",
        Why::InBarrier => "the hart's thread waits in a barrier",
        Why::Waiting => "a store of the hart waits",
        Why::FullBuffer => "the store buffer of the hart is full",
        Why::Others => "a store waits on a page that the call changes",
        Why::NoStore => "no store of the hart waits",
        Why::NoRequest => "no request of a barrier is pending at the hart",
        Why::NotInBarrier => "the hart's thread waits in no barrier",
        Why::Targets => "a hart that the barrier is about hasn't taken its request",
        Why::Busy => "a thread runs on the hart",
        Why::NotReady => "the thread isn't ready: it runs, waits or isn't live",
        Why::NotAllowed => "the hart isn't among the thread's harts",
        Why::NoSignal => "no signal can be delivered to the hart's thread",
    }
}
