//! What is kept.

pub mod kept;
