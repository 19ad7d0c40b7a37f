//! What requests of a client ask of a device.

ghost use Rattle.model_device.specs.Submit.{AsksTransfer};

/// A law: what a request asks is a transfer that a device can be asked for.
pub fn submits_ask_transfers()
    ensures { AsksTransfer }
{}
