//! Tests of the crates that read and write bytes: files of programs, devices, and lines of the log.
#![tactic(auto)]

#[cfg(test)]
mod devices;
#[cfg(test)]
mod elf;
#[cfg(test)]
mod lines;
#[cfg(test)]
mod words;
