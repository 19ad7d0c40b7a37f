//! What is served: the gate, and a modelled device that is lent.

pub mod after_loss;
pub mod gate;
pub mod lent;
