//! What a whole run is, by the fixed rule, by workers, by rounds and by a script, of one process or of two; and what is wrong with
//! a line of a script.
//!
//! The definitions stand in `specs/`, one subject a file; no code runs here.
#![tactic(auto)]
