//! The packets of receiving streams, held until requests take them, and what a request is given of them.
#![tactic(auto)]

mod behind;
mod fill;
mod interrupt;
mod iso;
mod laws;
mod up;

pub use behind::Behind;
pub use interrupt::Filling;
pub use iso::IsoFilling;
pub use laws::{fewest_fill, interrupt_fits, iso_fits};
pub use up::{MAX_HELD, Up};
