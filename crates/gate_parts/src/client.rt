//! What a client asks for.

pub mod reply;
pub mod verdict;
