//! The bytes that a packet is read from.

ghost use Rattle.std.specs.Prelude.{◌≡◌, ◌≤◌, ◌<◌, ◌+◌, ℕ, List, length, take, drop, IfOk, OnOk, OnErr};

use crate::list::Bytes;
use crate::memory::Memory;
use std::alloc::Global;

/// Bytes with a packet at their front: a stream's own, of which a long body is taken as it lies there, or lent ones, of
/// which it is copied.
pub trait PacketBytes {
    /// The bytes that are there.
    ghost contents: { Self → List ℕ };

    /// The same, lent.
    fn as_slice(&self) -> &[u8]
        ensures { result.now ≡ contents self.now };

    /// Drops the first `count` bytes.
    fn advance(&mut self, count: usize)
        requires { count ≤ length (contents self.old) }
        ensures { contents self.new ≡ drop count (contents self.old) };

    /// Takes the `len` bytes from the byte `from` on, and drops the first `size`.
    fn take_part(
        &mut self,
        alloc: Global,
        from: usize,
        len: usize,
        size: usize,
    ) -> Result<Bytes, Memory>
        requires within { from + len ≤ size }
        requires there { size ≤ length (contents self.old) }
        ensures part { IfOk result (λ part. part ≡ take len (drop from (contents self.old))) }
        ensures rest { OnOk result (contents self.new ≡ drop size (contents self.old)) }
        ensures err { OnErr result (contents self.new ≡ contents self.old) }
        ensures wants { OnErr result (0 < len) };
}

impl PacketBytes for &[u8] {
    ghost contents = { λ bytes. bytes.now };

    fn as_slice(&self) -> &[u8] {
        self
    }

    fn advance(&mut self, count: usize) {
        *self = &self[count..];
    }

    fn take_part(
        &mut self,
        alloc: Global,
        from: usize,
        len: usize,
        size: usize,
    ) -> Result<Bytes, Memory> {
        let part = Bytes::copied(alloc, &self[from..from + len])?;
        *self = &self[size..];
        Ok(part)
    }
}
