//! What happens in the course of serving.

use usb_base::Side;

/// What comes by the links: a client, nothing from the client that is there, the next piece of a side's stream, or its
/// end. A client that comes is polled in the same round; `ClientQuiet` is told at each poll of a client that brings
/// nothing.
#[derive(Clone, Copy)]
pub enum LinkEvent<'a> {
    ClientComes,
    ClientQuiet,
    SidePiece(Side, &'a [u8]),
    SideEnd(Side),
}
