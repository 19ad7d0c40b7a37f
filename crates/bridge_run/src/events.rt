//! What happens, and what it sends.

pub mod coming;
pub mod event;
pub mod sent;
