//! Numbers in decimal digits.

ghost use Rattle.std.specs.Prelude.{◌≡◌};
ghost use Rattle.journal.specs.Reading.{number_in};

/// The number of a text of digits; `None` for other texts, and if it has more than 64 bits.
pub fn number_in(text: &[u8]) -> Option<u64>
    ensures { result ≡ number_in text.now }
{
    let mut number: u64 = 0;
    let mut rest = text;
    while let [byte, after @ ..] = rest {
        if !byte.is_ascii_digit() {
            return None;
        }
        let digit = (*byte - b'0') as u64;
        number = number.checked_mul(10)?.checked_add(digit)?;
        rest = after;
    }
    Some(number)
}
