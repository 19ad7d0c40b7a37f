//! The gate: what is kept of the packets that have come, and what is done with the next one.
#![tactic(auto)]

mod client;
mod gate;
mod host;
mod state;
mod step;
mod write;

pub use gate::Gate;
