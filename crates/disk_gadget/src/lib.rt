//! A modelled disk: mass storage over blocks in memory, by the Bulk-Only Transport with a few commands of SCSI.
#![tactic(auto)]

mod act;
mod bulk;
mod class_request;
mod command;
mod disk;
mod laws;
mod medium;
mod report;
mod sense;
mod stage;
mod wrapper;

pub use disk::Disk;
pub use laws::{disk_numbers, disk_reads_what_was_written};
pub use medium::MAX_BLOCKS;
