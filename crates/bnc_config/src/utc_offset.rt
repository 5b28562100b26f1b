//! Offsets from UTC.

ghost use Rattle.std.specs.Prelude.{◌≡◌, ◌≤◌, IfSome, IsTrue};
ghost use Rattle.std.specs.Char.{is_ascii_digit};
ghost use Rattle.bnc_config.specs.Offset.{minutes_of, numeric_offset_of, offset_of, pair_value};
ghost use Rattle.bnc_config.specs.Offset.{side_of};

/// How far local times are from UTC: a number of minutes, at most 840, ahead of it or behind it.
#[derive(Clone, Copy, Debug, PartialEq, Eq)]
pub struct UtcOffset {
    /// Whether local times are behind UTC.
    pub is_behind: bool,
    /// The minutes between both.
    pub minutes: u32,
}

/// The number that two digits write.
fn pair_value(tens: u8, ones: u8) -> u32
    requires { IsTrue (is_ascii_digit tens) × IsTrue (is_ascii_digit ones) }
    ensures { result ≡ pair_value tens ones }
{
    u32::from(tens - b'0') * 10 + u32::from(ones - b'0')
}

/// The minutes of two digits of hours and two of minutes, at most 840.
fn minutes_of(h: u8, i: u8, m: u8, n: u8) -> Option<u32>
    ensures value { result ≡ minutes_of h i m n }
    ensures within { IfSome result (λ minutes. minutes ≤ 840) }
{
    if !(h.is_ascii_digit() && i.is_ascii_digit() && m.is_ascii_digit() && n.is_ascii_digit()) {
        return None;
    }
    let minutes = pair_value(h, i) * 60 + pair_value(m, n);
    if pair_value(m, n) < 60 && minutes <= 840 {
        Some(minutes)
    } else {
        None
    }
}

/// Whether a sign is a minus; none if it is no sign.
fn side_of(sign: u8) -> Option<bool>
    ensures { result ≡ side_of sign }
{
    match sign {
        b'+' => Some(false),
        b'-' => Some(true),
        _ => None,
    }
}

/// The offset that a sign, hours, a colon and minutes write.
fn numeric_offset_of(text: &[u8]) -> Option<UtcOffset>
    ensures value { result ≡ numeric_offset_of text.now }
    ensures within { IfSome result (λ offset. offset.minutes ≤ 840) }
{
    match text {
        [sign, h, i, b':', m, n] => {
            let is_behind = side_of(*sign)?;
            let minutes = minutes_of(*h, *i, *m, *n)?;
            Some(UtcOffset { is_behind, minutes })
        }
        _ => None,
    }
}

/// The offset that a text writes: `UTC`, `+01:00` or `-09:30`.
pub(crate) fn offset_of(text: &str) -> Option<UtcOffset>
    ensures value { result ≡ offset_of text.now }
    ensures within { IfSome result (λ offset. offset.minutes ≤ 840) }
{
    if text == "UTC" {
        return Some(UtcOffset {
            is_behind: false,
            minutes: 0,
        });
    }
    numeric_offset_of(text.as_bytes())
}
