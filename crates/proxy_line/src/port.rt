//! A port, as a proxy writes it.

ghost use Rattle.std.specs.Prelude.{◌≡◌, IsTrue, nat_le};
ghost use Rattle.std.specs.Char.{is_ascii_digit};
ghost use Rattle.std.specs.List.{list_all};
ghost use Rattle.std.specs.Str.Parse.{digits_value};
ghost use Rattle.proxy_line.specs.Port.{begins_well, is_port};

fn are_digits(text: &[u8]) -> bool
    ensures { result ≡ list_all is_ascii_digit text.now }
{
    text.iter().all(|byte| byte.is_ascii_digit())
}

/// Whether there is something, without a zero in front of other bytes.
fn begins_well(text: &[u8]) -> bool
    ensures { result ≡ begins_well text.now }
{
    match text {
        [] => false,
        [_] => true,
        [first, _, ..] => *first != b'0',
    }
}

/// Whether the number of these digits has at most 16 bits.
fn is_small(digits: &[u8]) -> bool
    requires { IsTrue (list_all is_ascii_digit digits.now) }
    ensures { result ≡ nat_le (digits_value 10 digits.now) 65535 }
{
    let mut number = 0u32;
    for digit in digits {
        number = number * 10 + u32::from(*digit - b'0');
        if number > 65_535 {
            return false;
        }
    }
    true
}

/// Whether the text is a port: a number from 0 to 65535 in decimal digits, without zeros in front.
pub(crate) fn is_port(text: &[u8]) -> bool
    ensures { result ≡ is_port text.now }
{
    begins_well(text) && are_digits(text) && is_small(text)
}
