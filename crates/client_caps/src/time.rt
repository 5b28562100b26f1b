//! When a line came, as the tag `time` has it (IRCv3 server-time).

ghost use Rattle.std.specs.Prelude.{◌≡◌, ◌≤◌, ◌+◌, ◌%◌, ◌++◌, true, IsTrue, codes, unwrap_or};
ghost use Rattle.std.specs.List.{list_all};
ghost use Rattle.irc_line.specs.Tags.{has_form, time_form, time_of, is_tag_byte};
ghost use Rattle.client_caps.specs.Moment.{date_of, day_text, hour_text};
ghost use Rattle.client_caps.specs.Moment.{last_digits, time_text_of};

use crate::moment::Moment;
use irc_line::Line;
use jiff::civil::Date;
use std::alloc::Allocator;

/// 9999-12-31T23:59:59.999Z, in milliseconds since 1970-01-01T00:00:00Z.
const LAST_MOMENT: u64 = 253_402_300_799_999;

/// A day, in milliseconds.
const DAY: u64 = 86_400_000;

/// The last decimal digit of a number.
fn last_digit(number: u16) -> u8
    ensures { result ≡ 48 + number % 10 }
{
    b'0' + (number % 10) as u8
}

/// The last two decimal digits of a number.
fn two_digits(number: u16) -> [u8; 2]
    ensures { result ≡ last_digits 2 number }
{
    [last_digit(number / 10), last_digit(number)]
}

/// The last three decimal digits of a number.
fn three_digits(number: u16) -> [u8; 3]
    ensures { result ≡ last_digits 3 number }
{
    let [tens, ones] = two_digits(number);
    [last_digit(number / 100), tens, ones]
}

/// The last four decimal digits of a number.
fn four_digits(number: u16) -> [u8; 4]
    ensures { result ≡ last_digits 4 number }
{
    let [thousands, hundreds] = two_digits(number / 100);
    let [tens, ones] = two_digits(number);
    [thousands, hundreds, tens, ones]
}

/// The date of the day that comes this many days after 1970-01-01, as `2000-02-29`.
#[tactic(auto, using(crate::proofs::Days::date_is))]
fn day_text(number: u32) -> [u8; 10]
    requires { number ≤ 2932896 }
    ensures { result ≡ day_text (date_of number) }
{
    let plain = jiff_core::civil::Date::from_unix_epoch_day(i64::from(number)).unwrap();
    let date = Date::from_plain(plain).to_plain();
    let [y1, y2, y3, y4] = four_digits(date.year.unsigned_abs());
    let [m1, m2] = two_digits(u16::from(date.month));
    let [d1, d2] = two_digits(u16::from(date.day));
    [y1, y2, y3, y4, b'-', m1, m2, b'-', d1, d2]
}

/// The time of day this many milliseconds after midnight, as `03:04:05.678Z`.
fn hour_text(ms: u32) -> [u8; 13]
    requires { ms ≤ 86399999 }
    ensures { result ≡ hour_text ms }
{
    let [h1, h2] = two_digits((ms / 3_600_000) as u16);
    let [m1, m2] = two_digits((ms / 60_000 % 60) as u16);
    let [s1, s2] = two_digits((ms / 1_000 % 60) as u16);
    let [t1, t2, t3] = three_digits((ms % 1_000) as u16);
    [h1, h2, b':', m1, m2, b':', s1, s2, b'.', t1, t2, t3, b'Z']
}

/// A moment as the tag `time` has it, in UTC and to the millisecond: 24 bytes, as
/// `2000-02-29T00:00:00.007Z` (IRCv3 server-time). A moment that comes after
/// `9999-12-31T23:59:59.999Z` counts as that one (our own choice). Takes no memory.
#[tactic(auto, using(crate::proofs::TimeText::time_formed, crate::proofs::TimeText::time_tagged), unfolding(crate::specs::Moment::time_text_of))]
pub fn time_text(moment: Moment) -> [u8; 24]
    ensures text { result ≡ time_text_of moment.0 }
    // It has the form of a time, and can be in a tag.
    ensures formed { has_form time_form (time_text_of moment.0) ≡ true }
    ensures tag { IsTrue (list_all is_tag_byte (time_text_of moment.0)) }
{
    let ms = moment.0.min(LAST_MOMENT);
    let [y1, y2, y3, y4, a, m1, m2, b, d1, d2] = day_text((ms / DAY) as u32);
    let [h1, h2, c, n1, n2, d, s1, s2, e, t1, t2, t3, z] = hour_text((ms % DAY) as u32);
    [
        y1, y2, y3, y4, a, m1, m2, b, d1, d2, b'T', h1, h2, c, n1, n2, d, s1, s2, e, t1, t2, t3, z,
    ]
}

/// The tag that says when a line came: its own time, if it has one, else the moment's.
#[tactic(auto, using(crate::proofs::TimeText::time_found))]
pub fn time_tag<A: Allocator>(line: &Line<A>, moment: Moment) -> [u8; 29]
    ensures { result ≡ codes "time=" ++ unwrap_or (time_of line.now) (time_text_of moment.0) }
{
    let mut tag = *b"time=1970-01-01T00:00:00.000Z";
    match line.time_tag() {
        Some(time) => tag[5..].copy_from_slice(time),
        None => tag[5..].copy_from_slice(&time_text(moment)),
    }
    tag
}

/// When a line came, as tags say it: its own time, if it has one, else the moment's; 24 bytes.
#[tactic(auto, using(crate::proofs::TimeText::shown_tagged, crate::proofs::TimeText::time_found))]
pub fn shown_time<A: Allocator>(line: &Line<A>, moment: Moment) -> [u8; 24]
    ensures time { result ≡ unwrap_or (time_of line.now) (time_text_of moment.0) }
    ensures tag { IsTrue (list_all is_tag_byte
        (unwrap_or (time_of line.now) (time_text_of moment.0))) }
{
    let Some(time) = line.time_tag() else {
        return time_text(moment);
    };
    let mut text = *b"1970-01-01T00:00:00.000Z";
    text.copy_from_slice(time);
    text
}
