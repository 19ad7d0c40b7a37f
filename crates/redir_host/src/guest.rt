//! What the guest asks for.

pub mod asking;
pub mod routed;
pub mod take;
