//! The outside of the program: where bytes come from and go to, and the links to both sides.
//!
//! Sources, sinks and doors count their faults where they happen, so that a caller's contract can say of every failure
//! that the outside was the cause.
#![tactic(auto)]

mod copy;
mod doors;
mod fault;
mod fault_plan;
mod no_doors;
mod reader;
mod script_doors;
mod script_reader;
mod script_side;
mod sink;
mod source;
mod std_stream;
mod text_sink;
mod text_source;
mod turn;
mod writer;

pub use doors::Doors;
pub use fault::Failed;
pub use no_doors::NoDoors;
pub use reader::Reader;
pub use script_doors::ScriptDoors;
pub use sink::{Sink, write_all};
pub use source::Source;
pub use std_stream::StdStream;
pub use text_sink::TextSink;
pub use text_source::TextSource;
pub use turn::{Polled, Script, Scripts, Turn};
pub use usb_base::Side;
pub use writer::Writer;
