//! A gateway and a modelled device between two wires, as one system that does step after step.
#![tactic(auto)]

mod inner;
mod laws;
mod notes;
mod submitted;
mod system;

pub use laws::systems_are_direct;
pub use system::System;
