//! Which submits had which ids.

use usb_base::List;

/// Submits, in the order in which they were accepted.
pub type Submits = List<Submitted>;

/// A submit that was accepted, with the id of its packet to the host; this is 0 where its answer goes by none, as that
/// of a request which waits for a stream does.
#[derive(Clone, Copy)]
pub struct Submitted {
    pub seqnum: u32,
    pub id: u64,
}
