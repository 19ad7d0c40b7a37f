//! Texts in fields of a fixed size.

ghost use Rattle.std.specs.Prelude.{◌≡◌, ◌≤◌, length};
ghost use Rattle.usb_base.specs.Text.{padded};

/// A text in a field of N bytes, with zeros after it.
pub fn padded<const N: usize>(text: &[u8]) -> [u8; N]
    requires { length text.now ≤ N }
    ensures { result ≡ padded N text.now }
{
    let mut field = [0; N];
    field[..text.len()].copy_from_slice(text);
    field
}
