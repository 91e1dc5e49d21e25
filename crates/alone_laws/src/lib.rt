//! A restartable sequence of a log is one run of its thread alone; so is any stretch of its instructions.
#![tactic(auto)]
