//! What happens to the gateway.

/// The next piece of a side's stream, or its end. Pieces may be cut anywhere. After a client's end the next
/// client's stream begins.
#[derive(Clone, Copy)]
pub enum Event<'a> {
    ClientPiece(&'a [u8]),
    ClientEnd,
    HostPiece(&'a [u8]),
    HostEnd,
}
