//! Laws of the disk's definitions, as contracts of functions that do nothing.

ghost use Rattle.std.specs.Prelude.{◌≡◌};
ghost use Rattle.disk_gadget.specs.Written.{ReadsWhatWasWritten};

use crate::medium::{BLOCK_SIZE, MAX_BLOCKS};
use crate::wrapper::{MOST_COMMAND, MOST_MOVED, WRAPPER_SIZE};

/// A law: after every list of transfers, the bytes that a read gives of a block are those that the last write
/// which passed and covers the block gave it, each in its place, and else zeros.
pub fn disk_reads_what_was_written()
    ensures { ReadsWhatWasWritten }
{}

/// A law: the numbers of bytes and of blocks that definitions name are these.
pub fn disk_numbers()
    ensures blocks { (BLOCK_SIZE ≡ 512) × (MAX_BLOCKS ≡ 4096) }
    ensures wrapper { (WRAPPER_SIZE ≡ 31) × (MOST_COMMAND ≡ 16) × (MOST_MOVED ≡ 1048576) }
{}
