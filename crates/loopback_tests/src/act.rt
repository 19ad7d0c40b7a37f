//! What a peer does.

use gate_outside::Side;

/// What a peer does, one act after another. An act that can't be done yet is tried again.
#[derive(Clone, Copy, Debug, PartialEq, Eq)]
pub enum Deed {
    /// Its link comes up.
    Comes,
    /// It sends these bytes.
    Gives,
    /// These bytes come next.
    Takes,
    /// It goes, and has read all that came.
    Closes,
    /// It goes when something has come that it hasn't read, so that its link is reset.
    Breaks,
    /// It sends nothing more.
    Shuts,
    /// Its link is closed by the gateway, and nothing has come before.
    Ends,
    /// It leaves the gateway time for what was sent before.
    Rests,
}

impl Deed {
    /// The deed of this name.
    pub fn named(name: &str) -> Option<Deed> {
        match name {
            "comes" => Some(Deed::Comes),
            "gives" => Some(Deed::Gives),
            "takes" => Some(Deed::Takes),
            "closes" => Some(Deed::Closes),
            "breaks" => Some(Deed::Breaks),
            "shuts" => Some(Deed::Shuts),
            "ends" => Some(Deed::Ends),
            "rests" => Some(Deed::Rests),
            _ => None,
        }
    }
}

/// Who does what, with which bytes.
#[derive(Drop)]
pub struct Act {
    pub side: Side,
    pub deed: Deed,
    pub bytes: Vec<u8>,
}

/// The side that a letter names.
pub fn side_of(letter: &str) -> Option<Side> {
    match letter {
        "c" => Some(Side::Client),
        "h" => Some(Side::Host),
        _ => None,
    }
}
