//! Counts and whole numbers among the decimals.
ghost use Rattle.std.specs.Prelude.{◌≡◌, ◌==◌, ◌&&◌, not, ℤ, pos, ◌+ℤ◌, ◌*ℤ◌, int_div, ◌+◌, ◌*◌, ◌%◌, ◌^◌, ◌<◌, ◌≤◌, unsigned_abs};
ghost use Rattle.std.specs.Int.{is_negative, int_div_euclid};
ghost use Rattle.inv_decimal.specs.Number.{unit};
ghost use Rattle.inv_decimal.specs.Arithmetic.{half};
ghost use Rattle.inv_decimal.specs.Whole.{count_of};

use crate::decimal::{Dec, HALF, UNIT};
use crate::fault::Overflow;
use crate::wide;

impl Dec {
    /// The number with this whole part and so many units behind the point, of which `10^18` make one.
    pub fn of_parts(whole: u64, fraction: u64) -> Dec
        requires whole { whole < 10 ^ 18 }
        requires fraction { fraction < 10 ^ 18 }
        ensures { result ≡ pos (whole * unit + fraction) }
    {
        Dec::from_parts(false, u128::from(whole) * wide::UNIT + u128::from(fraction))
    }

    /// The number of a count, where it is below `10^18`.
    pub fn of_count(count: u64) -> Result<Dec, Overflow>
        ensures { result ≡ count_of count }
    {
        if count < 1_000_000_000_000_000_000 {
            Ok(Dec::of_parts(count, 0))
        } else {
            Err(Overflow)
        }
    }

    /// The number of a whole one.
    pub fn of_whole(whole: i64) -> Dec
        requires { unsigned_abs whole < 10 ^ 18 }
        ensures { result ≡ whole *ℤ pos unit }
    {
        Dec {
            units: i128::from(whole) * UNIT,
        }
    }

    /// Whether the number is zero.
    pub fn is_zero(&self) -> bool
        ensures { result ≡ (unsigned_abs self.now == 0) }
    {
        self.units == 0
    }

    /// Whether the number has nothing behind the point.
    pub fn is_whole(&self) -> bool
        ensures { result ≡ (unsigned_abs self.now % unit == 0) }
    {
        self.magnitude() % wide::UNIT == 0
    }

    /// What stands before the point, with the sign: the number cut towards zero.
    pub fn whole(&self) -> i64
        ensures value { result ≡ int_div self.now (pos unit) }
        ensures bound { unsigned_abs result < 10 ^ 18 }
    {
        (self.units / UNIT) as i64
    }

    /// The greatest whole number that is not above this and a half. It may be `10^18`, which is no decimal.
    pub fn nearest_whole(&self) -> i64
        ensures value { result ≡ int_div_euclid (self.now +ℤ pos half) (pos unit) }
        ensures bound { unsigned_abs result ≤ 10 ^ 18 }
    {
        (self.units + HALF).div_euclid(UNIT) as i64
    }

    /// Whether the number is that count.
    pub fn is_count(&self, count: u64) -> bool
        ensures { result ≡ (not (is_negative self.now) && unsigned_abs self.now == count * unit) }
    {
        self.units >= 0 && self.magnitude() == u128::from(count) * wide::UNIT
    }
}
