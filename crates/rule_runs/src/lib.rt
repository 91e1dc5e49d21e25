//! Runs whose events a rule chooses: on one hart the fixed rule; by workers or by rounds the choice of each hart by the seed.
#![tactic(auto)]

mod rounds;
mod run;
mod shared;
mod solo;

pub use rounds::run_rounds;
pub use run::run_workers;
pub use solo::run_solo;
