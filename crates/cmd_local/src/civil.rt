//! Dates and times of day as text.
ghost use Rattle.std.specs.Prelude.{◌≡◌, ◌<◌, pos, unsigned_abs};
ghost use Rattle.std.specs.Int.{int_rem_euclid};
ghost use Rattle.cmd_local.specs.Civil.{civil_text, plain, time_text};
ghost use Rattle.cmd_local.specs.Digits.{digit, two_digits, four_digits, nine_digits};

use jiff_core::civil::Date;

/// The number of seconds in a day.
const DAY: i64 = 86_400;

/// The length of a time's text, in bytes.
pub const TIME_LEN: usize = 19;

/// Returns the digit of a number at the place of a unit.
pub fn digit(unit: u32, number: u32) -> u8
    requires { 0 < unit }
    ensures { result ≡ digit unit number }
{
    b'0' + (number / unit % 10) as u8
}

fn two_digits(number: u32) -> [u8; 2]
    ensures { result ≡ two_digits number }
{
    [digit(10, number), digit(1, number)]
}

fn four_digits(number: u32) -> [u8; 4]
    ensures { result ≡ four_digits number }
{
    [
        digit(1_000, number),
        digit(100, number),
        digit(10, number),
        digit(1, number),
    ]
}

/// Returns nanoseconds as nine digits.
pub fn nine_digits(number: u32) -> [u8; 9]
    ensures { result ≡ nine_digits number }
{
    [
        digit(100_000_000, number),
        digit(10_000_000, number),
        digit(1_000_000, number),
        digit(100_000, number),
        digit(10_000, number),
        digit(1_000, number),
        digit(100, number),
        digit(10, number),
        digit(1, number),
    ]
}

/// Returns the text of a date and of the seconds since midnight.
fn time_text(year: u32, month: u32, day: u32, second: u32) -> [u8; TIME_LEN]
    ensures { result ≡ time_text (record { year = year; month = month; day = day }) second }
{
    let [y0, y1, y2, y3] = four_digits(year);
    let [m0, m1] = two_digits(month);
    let [d0, d1] = two_digits(day);
    let [h0, h1] = two_digits(second / 3_600);
    let [n0, n1] = two_digits(second / 60 % 60);
    let [s0, s1] = two_digits(second % 60);
    [
        y0, y1, y2, y3, b'-', m0, m1, b'-', d0, d1, b' ', h0, h1, b':', n0, n1, b':', s0, s1,
    ]
}

/// Returns the seconds since midnight.
fn second_of_day(second: i64) -> u32
    ensures { result ≡ unsigned_abs (int_rem_euclid second (pos 86_400)) }
{
    second.rem_euclid(DAY) as u32
}

/// Returns the text of a date and of the seconds since midnight.
fn date_time_text(date: Date, second: u32) -> [u8; TIME_LEN]
    ensures { result ≡ time_text (plain date) second }
{
    let year = u32::from(date.year.unsigned_abs());
    time_text(year, u32::from(date.month), u32::from(date.day), second)
}

/// Returns the text of this many seconds after 1970-01-01 00:00:00, on a clock whose days have 24 hours. Returns None
/// if the year is not from 1900 to 9999.
pub fn civil_text(second: i64) -> Option<[u8; TIME_LEN]>
    ensures { result ≡ civil_text second }
{
    let Ok(date) = Date::from_unix_epoch_day(second.div_euclid(DAY)) else {
        return None;
    };
    if date.year < 1900 {
        return None;
    }
    Some(date_time_text(date, second_of_day(second)))
}
