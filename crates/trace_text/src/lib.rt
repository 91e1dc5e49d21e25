//! The text of a trace: each line of a log, and below it what came of its event.
#![tactic(auto)]
