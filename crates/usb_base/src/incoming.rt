//! Bytes as they come, before they are a buffer's.

ghost use Rattle.std.specs.Prelude.{◌≤◌, ℕ, List, length};

/// What bytes come from.
pub trait Incoming {
    /// Whether it may be asked for bytes, with so much room for them.
    ghost can_read: { Self → ℕ → Type 0 };

    /// What a call does: what they come from before it, how many have come, the room behind it, and what they come from
    /// then.
    ghost read_gives: { Self → ℕ → List ℕ → Self → Type 0 };

    /// Puts what comes now at the front of the room, and says how many bytes that are.
    fn read_into(&mut self, room: &mut [u8]) -> usize
        requires { can_read self.old (length room.old) }
        ensures within { result ≤ length room.old }
        ensures gives { read_gives self.old result room.new self.new };
}
