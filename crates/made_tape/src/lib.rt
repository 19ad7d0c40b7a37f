//! The tape that a number stands for: steps of a gateway and a modelled loop. A client imports the loop and configures
//! it, and then, in as many rounds as the number says, sends it bytes, asks for as many, and takes some requests back.
#![tactic(auto)]

mod again;
mod line;
mod made;
mod packet;
mod progress;
mod task;

pub use again::read_again;
pub use line::push_line;
pub use made::{MOST_ROUNDS, MadeTape, made_text};
