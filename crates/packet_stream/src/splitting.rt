//! Laws of the streams of every format.

ghost use Rattle.packet_stream.specs.Split.{Position, SplitsWell};

use crate::format::PacketFormat;

/// A law: a stream of bytes splits in one way into packets of this format and a rest, and splitting more bytes
/// is going on from where those before them left off.
pub fn splits_well<F: PacketFormat>()
    ensures { (start : Position F.State) → SplitsWell F.format F.after start }
{}
