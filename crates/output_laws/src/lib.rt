//! The laws of the outputs and of the causes of faults.
//!
//! Crates above cite `proofs/Laws.antt`, and nothing else of `proofs/`.
#![tactic(auto)]

mod theorems;
