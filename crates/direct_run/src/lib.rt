//! What a gateway and a modelled device's host between two wires do: steps, items and what is told, as plain types, and
//! the laws of the definitions.
#![tactic(auto)]

mod item;
mod laws;
mod step;
mod submitted;
mod told;

pub use item::{Item, Items};
pub use laws::{steps_are_moves, wires_are_outputs, wires_lose_nothing};
pub use step::Step;
pub use submitted::{Submits, Submitted};
pub use told::{Refusals, Told};
