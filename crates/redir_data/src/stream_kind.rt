//! The kinds of streams.

ghost use Rattle.std.specs.Prelude.{◌≡◌};
ghost use Rattle.redir_data.specs.StreamKinds.{is_kind_of};

use usb_base::EpKind;

/// Of which type the packets of a stream are. They are so until it is stopped, whatever its endpoint is then.
#[derive(Clone, Copy)]
pub enum StreamKind {
    Iso,
    Interrupt,
}

impl StreamKind {
    /// Whether a stream of this kind is one of an endpoint of this type.
    pub fn is_kind_of(self, endpoint: EpKind) -> bool
        ensures { result ≡ is_kind_of self endpoint }
    {
        matches!(
            (self, endpoint),
            (StreamKind::Iso, EpKind::Iso) | (StreamKind::Interrupt, EpKind::Interrupt)
        )
    }
}
