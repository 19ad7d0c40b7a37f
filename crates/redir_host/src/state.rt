//! What is kept.

pub mod host;
pub mod keys;
pub mod queue;
pub mod request;
pub mod requests;
pub mod running;
pub mod waiting;
