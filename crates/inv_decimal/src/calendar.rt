ghost use Rattle.std.specs.Prelude.{◌≡◌, ◌+◌, ◌≤◌, length};
ghost use Rattle.std.specs.Str.{chars};
ghost use Rattle.inv_decimal.specs.CivilDay.{IsDay, day_cmp, day_of};
ghost use Rattle.inv_decimal.specs.WrittenDay.{day_from, read_plain_day, read_dashed_day, plain_day_text, dashed_day_text};

use crate::printing::write_last_digits;
use crate::reading::number;
use jiff::civil::Date;
use std::cmp::Ordering;
use std::marker::Model;

/// A day of the years 1 to 9999 that the Gregorian calendar has (ISO 8601).
#[derive(Clone, Copy, PartialEq, Eq)]
pub struct Day {
    year: u16,
    month: u8,
    day: u8,
}

impl Model for Day {
    ghost use Rattle.inv_decimal.specs.CivilDay.{CivilDay, IsDay};

    ghost Value = { CivilDay };

    ghost view = { λ d. record { year = d.year; month = d.month; day = d.day } };

    ghost invariant = { λ d. IsDay (record { year = d.year; month = d.month; day = d.day }) };

    ghost inverse = { λ d. record { year = d.year; month = d.month; day = d.day } };
}

impl Day {
    /// The day that a text `YYYY-MM-DD` writes, if there is one.
    pub fn read_dashed(text: &str) -> Option<Day>
        ensures { result ≡ read_dashed_day (chars text.now) }
    {
        read_dashed_bytes(text.as_bytes())
    }

    /// The day that a text `YYYYMMDD` writes, if there is one.
    pub fn read_plain(text: &str) -> Option<Day>
        ensures { result ≡ read_plain_day (chars text.now) }
    {
        read_plain_bytes(text.as_bytes())
    }

    /// Fills the buffer with the day as `YYYY-MM-DD`.
    pub fn print_dashed(&self, buf: &mut [u8; 10])
        ensures text { buf.new ≡ dashed_day_text self.now }
        ensures exists { IsDay self.now }
    {
        write_last_digits(&mut buf[..4], u64::from(self.year));
        buf[4] = b'-';
        write_last_digits(&mut buf[5..7], u64::from(self.month));
        buf[7] = b'-';
        write_last_digits(&mut buf[8..], u64::from(self.day));
    }

    /// Fills the buffer with the day as `YYYYMMDD`.
    pub fn print_plain(&self, buf: &mut [u8; 8])
        ensures text { buf.new ≡ plain_day_text self.now }
        ensures exists { IsDay self.now }
    {
        write_last_digits(&mut buf[..4], u64::from(self.year));
        write_last_digits(&mut buf[4..6], u64::from(self.month));
        write_last_digits(&mut buf[6..], u64::from(self.day));
    }

    /// Which day is earlier.
    pub fn cmp(&self, other: &Day) -> Ordering
        ensures order { result ≡ day_cmp self.now other.now }
        ensures exist { IsDay self.now × IsDay other.now }
    {
        let by_year = self.year.cmp(&other.year);
        let by_month = self.month.cmp(&other.month);
        by_year.then(by_month).then(self.day.cmp(&other.day))
    }
}

fn read_dashed_bytes(text: &[u8]) -> Option<Day>
    ensures { result ≡ read_dashed_day text.now }
{
    if text.len() != 10 {
        return None;
    }
    if text[4] != b'-' || text[7] != b'-' {
        return None;
    }
    from_digits(&text[..4], &text[5..7], &text[8..])
}

fn read_plain_bytes(text: &[u8]) -> Option<Day>
    ensures { result ≡ read_plain_day text.now }
{
    if text.len() != 8 {
        return None;
    }
    from_digits(&text[..4], &text[4..6], &text[6..])
}

/// The day that the digits of its year, month and day write, if there is one.
fn from_digits(year: &[u8], month: &[u8], day: &[u8]) -> Option<Day>
    requires { length year.now + length month.now + length day.now ≤ 18 }
    ensures { result ≡ day_from year.now month.now day.now }
{
    existing(number(year)?, number(month)?, number(day)?)
}

/// The day of that year, month and day, if there is one.
fn existing(year: u64, month: u64, day: u64) -> Option<Day>
    ensures { result ≡ day_of year month day }
{
    if year == 0 || year > 9999 || month > 12 || day > 31 {
        return None;
    }
    match Date::new(year as i16, month as i8, day as i8) {
        Ok(_) => Some(Day {
            year: year as u16,
            month: month as u8,
            day: day as u8,
        }),
        Err(_) => None,
    }
}
