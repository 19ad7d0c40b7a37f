//! The host's hello.

ghost use Rattle.std.specs.Prelude.{◌≡◌, ◌++◌, OnOk, OnErr};
ghost use Rattle.redir_host.specs.write.Output.{hello_bytes};

use redir_wire::{Caps, Hello, RedirControl, write_control};
use std::alloc::Global;
use usb_base::{Boxed, Bytes, Memory};

/// Appends the host's hello: its name, and the capabilities that it announces. For want of memory `out` stands.
pub fn write_hello(alloc: Global, out: &mut Bytes) -> Result<(), Memory>
    ensures ok { OnOk result (out.new ≡ out.old ++ hello_bytes) }
    ensures err { OnErr result (out.new ≡ out.old) }
{
    let hello = Hello::of(alloc, b"usbgate host 1", Caps::ANNOUNCED)?;
    let hello = RedirControl::Hello(Boxed::new(alloc, hello)?);
    write_control(&hello, 0, Caps::empty(), out)
}
