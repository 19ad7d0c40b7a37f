//! Laws of the packets, as contracts of functions that do nothing.

ghost use Rattle.redir_data.specs.Written.{PacketsSound, DataReadAgain, ControlReadAgain, DataWritesBack, ControlWritesBack};

/// What is read is spelled so, and what is spelled so is read.
pub fn packets_sound()
    ensures { PacketsSound }
{}

/// Data that were written are read again, whatever comes after them.
pub fn data_read_again()
    ensures { DataReadAgain }
{}

/// A packet that moves no data and was written is read again, whatever comes after it.
pub fn control_read_again()
    ensures { ControlReadAgain }
{}

/// The bytes that were read as data are those that are written.
pub fn data_writes_back()
    ensures { DataWritesBack }
{}

/// The bytes that were read as a packet that moves no data are those that are written.
pub fn control_writes_back()
    ensures { ControlWritesBack }
{}
