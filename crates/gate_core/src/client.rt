//! What a client asks for.

pub mod import;
pub mod iso;
pub mod leave;
pub mod submit;
pub mod unlink;
pub mod wait;
