//! Copies between slices.

ghost use Rattle.std.specs.Prelude.{◌≡◌, ◌≤◌, ◌-◌, ◌+◌, ◌++◌, length, take, min};

/// Copies at most `most` bytes from the front of `from` to that of `to`, and returns how many: as many as
/// both have.
pub(crate) fn copy_front(from: &[u8], most: usize, to: &mut [u8]) -> usize
    ensures count { result ≡ min (min (length from.now) most) (length to.old) }
    ensures bytes { take result to.new ≡ take result from.now }
{
    let n = from.len().min(most).min(to.len());
    to[..n].copy_from_slice(&from[..n]);
    n
}

/// Copies at most `most` bytes from the front of `from` behind the first `used` of `space`, and returns how
/// many: as many as there are and as have room.
pub(crate) fn append_front(from: &[u8], most: usize, space: &mut [u8], used: usize) -> usize
    requires { used ≤ length space.old }
    ensures count { result ≡ min (min (length from.now) most) (length space.old - used) }
    ensures bytes { take (used + result) space.new ≡ take used space.old ++ take result from.now }
{
    copy_front(from, most, &mut space[used..])
}
