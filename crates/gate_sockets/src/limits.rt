//! How often a blocked write is tried, how long a link is passed over, and how many intervals are made up for.

ghost use Rattle.std.specs.Prelude.{◌≡◌};
ghost use Rattle.gate_sockets.specs.Pace.{most_made_up};
ghost use Rattle.gate_sockets.specs.Polling.{most_rests};
ghost use Rattle.gate_sockets.specs.Writing.{most_tries};

/// How often a write that is blocked is tried before its last try. Behind each it is waited for a millisecond at most.
pub const TRIES: u32 = 1_000_000;

/// At which poll a link is read again of which a read has taken all that was there, or had to wait, where the system
/// tells of nothing before.
pub const RESTS: u32 = 8;

/// How many intervals are made up for at most, where polls came too late.
pub const MADE_UP: u32 = 16;

/// A law: the limits that definitions name are these.
pub fn socket_limits()
    ensures tries { most_tries ≡ 1000001 }
    ensures rests { most_rests ≡ 8 }
    ensures made_up { most_made_up ≡ 16 }
{}
