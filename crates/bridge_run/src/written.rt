//! What is written: to the links and to the tape.

pub mod link;
pub mod recording;
