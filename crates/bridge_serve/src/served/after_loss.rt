//! What becomes of a client whose device is lost.

/// Whether the link of a client is kept or closed whose imported device is lost.
#[derive(Clone, Copy)]
pub enum AfterLoss {
    /// It stays, until the client leaves.
    Keep,
    /// Once what the loss sends is written, it is closed.
    Close,
}
