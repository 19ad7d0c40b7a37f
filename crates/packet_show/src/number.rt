//! The numbers of tapes and words.

ghost use Rattle.std.specs.Prelude.{◌≡◌, ◌≢◌, ℕ, MatchOption};
ghost use Rattle.packet_show.specs.Line.{decimal};
ghost use Rattle.packet_show.specs.Number.{number_of, begins_a_number, IsNumber};

/// The number from 1 to 4,294,967,295 of this text: its decimal digits, without a sign or a leading zero.
pub fn read_number(text: &[u8]) -> Option<u32>
    ensures value { result ≡ number_of text.now }
    ensures exact { MatchOption result ((n : ℕ) → IsNumber n → text.now ≢ decimal n) (λ n. IsNumber n × (text.now ≡ decimal n)) }
{
    if !begins_a_number(text) {
        return None;
    }
    let Ok(digits) = str::from_utf8(text) else {
        return None;
    };
    digits.parse().ok()
}

/// Whether the first byte is a digit other than 0.
fn begins_a_number(text: &[u8]) -> bool
    ensures { result ≡ begins_a_number text.now }
{
    matches!(text, [b'1'..=b'9', ..])
}
