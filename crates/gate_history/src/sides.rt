//! Where both sides stand.

ghost use Rattle.std.specs.Prelude.{◌≡◌};
ghost use Rattle.gate_history.specs.state.Sides.{no_sides};

use redir_wire::Caps;

/// Where both sides stand.
#[derive(Clone, Copy)]
pub struct Sides {
    /// The capabilities that are agreed, none before the host's hello.
    pub agreed: Caps,
    /// The present client has imported the device, and isn't gone.
    pub imported: bool,
    /// The device was lost, and no import came after that.
    pub lost: bool,
    /// The present client was refused.
    pub client_over: bool,
    /// The host has ended or was refused.
    pub host_over: bool,
}

impl Sides {
    /// Nothing has come.
    pub fn none() -> Sides
        ensures { result ≡ no_sides }
    {
        Sides {
            agreed: Caps::empty(),
            imported: false,
            lost: false,
            client_over: false,
            host_over: false,
        }
    }
}
