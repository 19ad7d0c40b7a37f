//! The commands over a tape, or over a made one, that have a gateway within: `replay`, `model` and `load`.
#![tactic(auto)]

mod model;
mod replay;
pub mod runs;

pub use model::load::load;
