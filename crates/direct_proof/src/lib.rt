//! The gateway and a modelled device between two wires stand for the device attached directly: when they do, and which
//! moves keep it so.
#![tactic(auto)]

mod laws;

pub use laws::{moves_are_direct, simulation};
