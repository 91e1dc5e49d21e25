//! Tests of the kernel: of its tables, of what `run` lets a hart do next, and of the calls that threads make.
#![tactic(auto)]

#[cfg(test)]
mod areas;
#[cfg(test)]
mod barriers;
#[cfg(test)]
mod calls;
#[cfg(test)]
mod choices;
#[cfg(test)]
mod frames;
#[cfg(test)]
mod interruptions;
#[cfg(test)]
mod memories;
#[cfg(test)]
mod scheduling;
