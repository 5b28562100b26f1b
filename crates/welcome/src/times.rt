//! The times that are put into the texts of messages, for clients without server-time.

ghost use Rattle.std.specs.Prelude.{◌≡◌, ◌<◌, ◌≤◌, ◌+◌, ◌%◌, ◌/◌, ◌++◌, ◌∷◌, [], OnOk, Some, None};
ghost use Rattle.std.specs.Prelude.{drop, length, option_map, pos, true, if◌then◌else◌};
ghost use Rattle.jiff_core.specs.Calendar.{days_in_month, is_leap_year};
ghost use Rattle.irc_line.specs.Tags.{fits_form, has_form, time_form};
ghost use Rattle.client_caps.specs.Moment.{last_digits};
ghost use Rattle.history.specs.Keeping.{ends_word, is_action};
ghost use Rattle.welcome.specs.Times.{after_space, day_after, day_before, day_of, digit_at, in_zone};
ghost use Rattle.welcome.specs.Times.{is_clock, is_day, is_moment, is_on, long_stamp, short_stamp};
ghost use Rattle.welcome.specs.Times.{shown_at, spelled, stamp, two_at, with_stamp, zone_day};
ghost use Rattle.welcome.specs.Times.{zone_minute};

use crate::playing::Offset;
use net_view::OutOfMemory;
use std::alloc::Allocator;

/// The form of a time; `d` stands for a digit.
const TIME_FORM: &[u8; 24] = b"dddd-dd-ddTdd:dd:dd.dddZ";

/// A day, in minutes.
const DAY: u32 = 1_440;

/// A day of the Gregorian calendar.
#[derive(Clone, Copy, Debug)]
pub struct Day {
    year: u32,
    month: u32,
    day: u32,
}

/// A minute of a day.
#[derive(Clone, Copy, Debug)]
pub struct Minute {
    day: Day,
    /// How many minutes of the day came before it.
    minute: u32,
}

/// Whether the byte may be where the form has this one.
fn fits(byte: u8, form: u8) -> bool
    ensures { result ≡ fits_form byte form }
{
    match form {
        b'd' => byte.is_ascii_digit(),
        _ => byte == form,
    }
}

fn is_of_form(form: &[u8], text: &[u8]) -> bool
    ensures { result ≡ has_form form.now text.now }
{
    let (mut form, mut text) = (form, text);
    while let [f, others @ ..] = form {
        let [byte, bytes @ ..] = text else {
            return false;
        };
        if !fits(*byte, *f) {
            return false;
        }
        (form, text) = (others, bytes);
    }
    text.is_empty()
}

/// Whether the text has the form of a time, `2020-01-02T03:04:05.678Z`, of 24 bytes.
#[tactic(auto, using(crate::proofs::Stamps::time_length))]
fn is_time(text: &[u8]) -> bool
    ensures form { result ≡ has_form time_form text.now }
    ensures long { result ≡ true → length text.now ≡ 24 }
{
    is_of_form(TIME_FORM, text)
}

/// The digit at a place.
fn digit_at(text: &[u8], at: usize) -> u32
    requires { at < length text.now }
    ensures digit { result ≡ digit_at text.now at }
    ensures small { result < 256 }
{
    u32::from(text[at].saturating_sub(b'0'))
}

/// The number of the two digits from a place on.
fn two_at(text: &[u8], at: usize) -> u32
    requires { at + 1 < length text.now }
    ensures number { result ≡ two_at text.now at }
    ensures small { result < 2816 }
{
    digit_at(text, at) * 10 + digit_at(text, at + 1)
}

/// The minute that a text of a time spells.
fn spelled(text: &[u8]) -> Minute
    requires { length text.now ≡ 24 }
    ensures minute { result ≡ spelled text.now }
    ensures small { result.minute < 200000 }
{
    let day = Day {
        year: two_at(text, 0) * 100 + two_at(text, 2),
        month: two_at(text, 5),
        day: two_at(text, 8),
    };
    Minute {
        day,
        minute: two_at(text, 11) * 60 + two_at(text, 14),
    }
}

fn is_leap_year(year: u32) -> bool
    ensures { result ≡ is_leap_year (pos year) }
{
    year % 4 == 0 && (year % 100 != 0 || year % 400 == 0)
}

/// How many days the month of a year has.
fn days_in_month(year: u32, month: u32) -> u32
    ensures { result ≡ days_in_month (pos year) month }
{
    match month {
        2 => { if is_leap_year(year) { 29 } else { 28 } }
        4 | 6 | 9 | 11 => 30,
        _ => 31,
    }
}

fn is_day(day: Day) -> bool
    ensures { result ≡ is_day day }
{
    1 <= day.month
        && day.month <= 12
        && 1 <= day.day
        && day.day <= days_in_month(day.year, day.month)
}

/// Whether the calendar's days have this minute; a second 60 is one that was inserted.
fn is_clock(text: &[u8]) -> bool
    requires { length text.now ≡ 24 }
    ensures { result ≡ is_clock text.now }
{
    two_at(text, 11) < 24 && two_at(text, 14) < 60 && two_at(text, 17) < 61
}

/// Whether a text of a time spells a moment of the calendar.
#[tactic(auto, unfolding(crate::specs::Times::is_moment))]
fn is_moment(text: &[u8]) -> bool
    ensures moment { result ≡ is_moment text.now }
    ensures long { result ≡ true → length text.now ≡ 24 }
{
    if !is_time(text) {
        return false;
    }
    is_day(spelled(text).day) && is_clock(text)
}

/// The day before, if it is in the years 0000 to 9999.
fn day_before(day: Day) -> Option<Day>
    ensures { result ≡ day_before day }
{
    let Day {
        year,
        month,
        day: number,
    } = day;
    if 1 < number {
        Some(Day {
            year,
            month,
            day: number - 1,
        })
    } else if 1 < month {
        Some(Day {
            year,
            month: month - 1,
            day: days_in_month(year, month - 1),
        })
    } else if 0 < year {
        Some(Day {
            year: year - 1,
            month: 12,
            day: 31,
        })
    } else {
        None
    }
}

/// The day after, if it is in the years 0000 to 9999.
fn day_after(day: Day) -> Option<Day>
    ensures { result ≡ day_after day }
{
    let Day {
        year,
        month,
        day: number,
    } = day;
    if number < days_in_month(year, month) {
        Some(Day {
            year,
            month,
            day: number + 1,
        })
    } else if month < 12 {
        Some(Day {
            year,
            month: month + 1,
            day: 1,
        })
    } else if year < 9999 {
        Some(Day {
            year: year + 1,
            month: 1,
            day: 1,
        })
    } else {
        None
    }
}

/// The minute in a zone, counted from the midnight before the day's own.
fn zone_minute(offset: Offset, minute: u32) -> u32
    requires { minute < 200000 }
    ensures { result ≡ zone_minute offset minute }
{
    let minutes = u32::from(offset.minutes);
    if offset.is_before {
        (DAY + minute).saturating_sub(minutes)
    } else {
        DAY + minute + minutes
    }
}

/// The day on which it falls.
fn zone_day(day: Day, minute: u32) -> Option<Day>
    ensures { result ≡ zone_day day minute }
{
    if minute < DAY {
        day_before(day)
    } else if minute < 2 * DAY {
        Some(day)
    } else {
        day_after(day)
    }
}

/// The same minute in a zone.
fn in_zone(offset: Offset, at: Minute) -> Option<Minute>
    requires { at.minute < 200000 }
    ensures { result ≡ in_zone offset at }
{
    let minute = zone_minute(offset, at.minute);
    match zone_day(at.day, minute) {
        Some(day) => Some(Minute {
            day,
            minute: minute % DAY,
        }),
        None => None,
    }
}

/// The minute in a zone at which a message came; `None` of a time that is none, or that leaves the
/// years 0000 to 9999 there.
#[tactic(auto, using(crate::proofs::Stamps::shown_steps))]
pub fn shown_at(offset: Offset, time: &[u8]) -> Option<Minute>
    ensures { result ≡ shown_at offset time.now }
{
    if !is_moment(time) {
        return None;
    }
    in_zone(offset, spelled(time))
}

/// The day of a minute.
pub fn day_of(at: Option<Minute>) -> Option<Day>
    ensures { result ≡ day_of at }
{
    match at {
        Some(at) => Some(at.day),
        None => None,
    }
}

/// The last decimal digit of a number.
fn last_digit(number: u32) -> u8
    ensures { result ≡ 48 + number % 10 }
{
    b'0' + (number % 10) as u8
}

/// The last two decimal digits of a number.
fn two_digits(number: u32) -> [u8; 2]
    ensures { result ≡ last_digits 2 number }
{
    [last_digit(number / 10), last_digit(number)]
}

/// The last four decimal digits of a number.
fn four_digits(number: u32) -> [u8; 4]
    ensures { result ≡ last_digits 4 number }
{
    let [thousands, hundreds] = two_digits(number / 100);
    let [tens, ones] = two_digits(number);
    [thousands, hundreds, tens, ones]
}

/// A time of day, as `[03:04] `.
fn short_stamp(at: Minute) -> [u8; 8]
    ensures { result ≡ short_stamp at }
{
    let [h1, h2] = two_digits(at.minute / 60);
    let [m1, m2] = two_digits(at.minute % 60);
    [b'[', h1, h2, b':', m1, m2, b']', b' ']
}

/// The same after its date, as `[2020-01-02 03:04] `.
fn long_stamp(at: Minute) -> [u8; 19]
    ensures { result ≡ long_stamp at }
{
    let [y1, y2, y3, y4] = four_digits(at.day.year);
    let [m1, m2] = two_digits(at.day.month);
    let [d1, d2] = two_digits(at.day.day);
    let [h1, h2] = two_digits(at.minute / 60);
    let [n1, n2] = two_digits(at.minute % 60);
    [
        b'[', y1, y2, y3, y4, b'-', m1, m2, b'-', d1, d2, b' ', h1, h2, b':', n1, n2, b']', b' ',
    ]
}

/// Whether the message before came on this day.
fn is_on(before: Option<Day>, day: Day) -> bool
    ensures { result ≡ is_on before day }
{
    match before {
        Some(other) => {
            other.year == day.year && other.month == day.month && other.day == day.day
        }
        None => false,
    }
}

/// Adds the time of a message, after its date unless the message before came on the same day.
#[tactic(auto, unfolding(crate::specs::Times::stamp))]
fn push_stamp<A: Allocator>(
    text: &mut Vec<u8, A>,
    before: Option<Day>,
    at: Minute,
) -> Result<(), OutOfMemory>
    ensures { OnOk result (text.new.items ≡ text.old.items ++ stamp before at) }
{
    if is_on(before, at.day) {
        text.extend_from_slice(&short_stamp(at))
    } else {
        text.extend_from_slice(&long_stamp(at))
    }
}

/// The text after the first word of an ACTION, and after a space there.
fn after_space(text: &[u8]) -> &[u8]
    ensures { result.now ≡ after_space text.now }
{
    match text {
        [b' ', rest @ ..] => rest,
        _ => text,
    }
}

/// Whether a word of CTCP may end before this text.
fn ends_word(text: &[u8]) -> bool
    ensures { result ≡ ends_word text.now }
{
    matches!(text, [] | [b' ' | 1, ..])
}

/// The text after the word of an ACTION, without the space there; `None` of another text.
fn action_rest(text: &[u8]) -> Option<&[u8]>
    ensures { option_map (λ rest. rest.now) result
        ≡ (if is_action text.now then Some (after_space (drop 7 text.now)) else None) }
{
    if text.starts_with(b"\x01ACTION") && ends_word(&text[7..]) {
        Some(after_space(&text[7..]))
    } else {
        None
    }
}

/// Adds the text of a message with its time: at its front, as `[03:04] hello`, in an ACTION after
/// the word, and in other CTCP, which begins with byte 1, nowhere.
#[tactic(auto, unfolding(crate::specs::Times::with_stamp))]
pub fn push_with_stamp<A: Allocator>(
    said: &mut Vec<u8, A>,
    before: Option<Day>,
    at: Minute,
    text: &[u8],
) -> Result<(), OutOfMemory>
    ensures { OnOk result (said.new.items
        ≡ said.old.items ++ with_stamp (stamp before at) text.now) }
{
    if let Some(rest) = action_rest(text) {
        said.extend_from_slice(b"\x01ACTION ")?;
        push_stamp(said, before, at)?;
        return said.extend_from_slice(rest);
    }
    if !text.starts_with(b"\x01") {
        push_stamp(said, before, at)?;
    }
    said.extend_from_slice(text)
}
