//! The service day that a text names.
ghost use Rattle.std.specs.Prelude.{◌≡◌, ◌<◌, IfSome};
ghost use Rattle.pay_day.specs.Words.{IsDay};
ghost use Rattle.pay_dates.specs.Reading.{date_bytes, dated_day, day_of_text, is_spelled, numbered_day, ones_byte, service_day, tens_byte};

use jiff::civil::Date;
use pay_day::limits::{FIRST_DAY, LAST_DAY};

/// The service day that a text names: its number, counted from 1970-01-01, or its date as `2024-01-08`. None if it is
/// neither, or out of range.
#[tactic(auto, unfolding(crate::specs::Reading::day_of_text))]
pub fn read_day(text: &str) -> Option<u32>
    ensures value { result ≡ day_of_text text.now }
    ensures in_range { IfSome result IsDay }
{
    match numbered_day(text) {
        Some(day) => Some(day),
        None => dated_day(text),
    }
}

/// The service day whose number a text is.
fn numbered_day(text: &str) -> Option<u32>
    ensures value { result ≡ numbered_day text.now }
    ensures in_range { IfSome result IsDay }
{
    service_day(text.parse::<u32>().ok()?)
}

/// The service day whose date a text is.
fn dated_day(text: &str) -> Option<u32>
    ensures value { result ≡ dated_day text.now }
    ensures in_range { IfSome result IsDay }
{
    let date = text.parse::<Date>().ok()?;
    if is_spelled(date, text) {
        service_day(u32::try_from(date.to_plain().to_unix_epoch_day()).ok()?)
    } else {
        None
    }
}

/// The day of this number, if it is a service day.
fn service_day(day: u32) -> Option<u32>
    ensures value { result ≡ service_day day }
    ensures in_range { IfSome result IsDay }
{
    if FIRST_DAY <= day && day <= LAST_DAY {
        Some(day)
    } else {
        None
    }
}

/// Whether a text is just the ten bytes of a date, of a year from 0 on.
fn is_spelled(date: Date, text: &str) -> bool
    ensures { result ≡ is_spelled text.now date.year date.month date.day }
{
    match u16::try_from(date.year()) {
        Ok(year) => text.as_bytes()
            == date_bytes(year, date.month() as u8, date.day() as u8).as_slice(),
        Err(_) => false,
    }
}

/// A date as `2024-01-08`.
fn date_bytes(year: u16, month: u8, day: u8) -> [u8; 10]
    requires year { year < 10_000 }
    requires month { month < 100 }
    requires day { day < 100 }
    ensures { result ≡ date_bytes year month day }
{
    let (century, of_century) = ((year / 100) as u8, (year % 100) as u8);
    [
        tens_byte(century),
        ones_byte(century),
        tens_byte(of_century),
        ones_byte(of_century),
        b'-',
        tens_byte(month),
        ones_byte(month),
        b'-',
        tens_byte(day),
        ones_byte(day),
    ]
}

/// The tens of a number below 100, as a digit.
fn tens_byte(number: u8) -> u8
    requires { number < 100 }
    ensures { result ≡ tens_byte number }
{
    b'0' + number / 10
}

/// The ones of a number, as a digit.
fn ones_byte(number: u8) -> u8
    ensures { result ≡ ones_byte number }
{
    b'0' + number % 10
}
