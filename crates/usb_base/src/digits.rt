//! Bytes as hexadecimal digits.

ghost use Rattle.std.specs.Prelude.{◌≡◌, ◌++◌, ◌*◌, ◌≤◌, ℕ, length, take, OnOk, OnErr};
ghost use Rattle.hex.specs.Hex.{encode_lower};

use crate::list::Bytes;
use crate::memory::Memory;

/// How many bytes' digits are made before they are appended. Their place is small enough to stay in the nearest cache.
const AT_ONCE: usize = 256;

/// Appends bytes in lower-case hexadecimal, two digits each. For want of memory the digits of a front of them are
/// there.
pub fn push_hex(bytes: &[u8], text: &mut Bytes) -> Result<(), Memory>
    ensures ok { OnOk result (text.new ≡ text.old ++ encode_lower bytes.now) }
    ensures err { OnErr result ((count : ℕ) × (text.new ≡ text.old ++ encode_lower (take count bytes.now))) }
{
    let mut digits = [0; 2 * AT_ONCE];
    for front in bytes.chunks(AT_ONCE) {
        push_front(front, &mut digits, text)?;
    }
    Ok(())
}

/// Appends two digits for each byte, which are made in `digits`.
fn push_front(front: &[u8], digits: &mut [u8], text: &mut Bytes) -> Result<(), Memory>
    requires { 2 * length front.now ≤ length digits.old }
    ensures digits { OnOk result (text.new ≡ text.old ++ encode_lower front.now) }
    ensures err { OnErr result (text.new ≡ text.old) }
    ensures room { length digits.new ≡ length digits.old }
{
    let made = &mut digits[..2 * front.len()];
    let Ok(()) = hex::encode_to_slice(front, made) else {
        unreachable!();
    };
    text.append(made)
}
