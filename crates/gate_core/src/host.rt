//! What the host says.

pub mod arrive;
pub mod loss;
pub mod stream_end;
pub mod told;
