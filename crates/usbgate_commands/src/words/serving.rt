//! What the gateway between links is asked.

use bridge_serve::AfterLoss;
use std::marker::Model;

/// Where the host and the clients' door are, when to end, the id of the first packet to the host, what becomes of
/// a client whose device is lost, and where the session is recorded.
#[derive(Drop)]
pub struct Serving<'a> {
    /// The host's address.
    pub host: &'a str,
    /// The address of the clients' door.
    pub listen: &'a str,
    /// After how many rounds in a row in which nothing comes it ends.
    pub idle: u32,
    /// The id of the first packet to the host.
    pub first_id: u32,
    /// What becomes of a client whose device is lost.
    pub after_loss: AfterLoss,
    /// The file in which the session is recorded, if any.
    pub recording: Option<&'a str>,
}

impl<'a> Model for Serving<'a> {
    ghost use Rattle.usbgate_commands.specs.words.Serving.{ServeSettings};
    ghost use Rattle.usbgate_commands.specs.inner.Given.{text_of};

    ghost Value = { ServeSettings };

    ghost view = { λ serving. record { host = serving.host.now; listen = serving.listen.now; idle = serving.idle; first_id = serving.first_id; after_loss = serving.after_loss; recording = text_of serving.recording } };
}
