//! Each refusal of each call, beside calls that succeed.

use crate::calls::scenes::{asking, console, memory, random, sequences, signalling, threads};
use crate::calls::steps::{Scene, play};
use std::test::Fail;

/// The scenes of all calls.
const TABLES: [&[Scene]; 7] = [
    &asking::SCENES,
    &console::SCENES,
    &memory::SCENES,
    &random::SCENES,
    &sequences::SCENES,
    &signalling::SCENES,
    &threads::SCENES,
];

#[test]
fn each_refusal_stands_beside_a_success(rt: HostRuntime) -> Result<(), Fail> {
    for scenes in &TABLES {
        play(&rt, rt.alloc(), scenes)?;
    }
    Ok(())
}
