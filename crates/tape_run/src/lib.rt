//! A run over a tape, from its start to its end: its lines, what a command makes of them, the text that is printed and
//! how it ends. The commands that have no gateway within are here whole (`show`, `make`); those that have one are
//! commands over a tape (`TapeCommand`, `EventCommand`), which `usbgate_tapes` hands to `over_tape`.
#![tactic(auto)]

mod model;
pub mod runs;
mod show;
mod status;
mod tape;
mod text;

pub use model::device::Device;
pub use model::make::make;
pub use model::user::DeviceUser;
pub use status::Status;
pub use tape::command::TapeCommand;
pub use tape::events::{EventCommand, EventTape};
pub use text::printed::print;
pub use text::{USAGE, push_bytes, push_counts, push_notes, push_told};
