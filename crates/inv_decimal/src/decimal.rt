ghost use Rattle.std.specs.Prelude.{◌≡◌, ℕ, ℤ, pos, neg_ℤ, ◌++◌, ◌*◌, ◌/◌, ◌%◌, ◌^◌, ◌<◌, ◌≤◌, length, drop, unsigned_abs};
ghost use Rattle.std.specs.Int.{is_negative};
ghost use Rattle.std.specs.Ordering.{int_cmp};
ghost use Rattle.std.specs.Str.{chars};
ghost use Rattle.inv_decimal.specs.Number.{IsDecimal};
ghost use Rattle.inv_decimal.specs.Arithmetic.{in_range, floor_of, sum_of, difference_of, product_of, quotient_of, whole_quotient_of, remainder_of};
ghost use Rattle.inv_decimal.specs.Arithmetic.{rounded_down, rounded_up, rounded, nearest_hundredth};
ghost use Rattle.inv_decimal.specs.WrittenNumber.{read_decimal, decimal_text, with_sign};

use crate::fault::{DecFault, DivisionByZero, Overflow};
use crate::printing::{print_number, significant_digits};
use crate::scaled_decimal::Scaled;
use crate::wide;
use std::cmp::Ordering;
use std::marker::Model;

pub(crate) const UNIT: i128 = 1_000_000_000_000_000_000;

pub(crate) const HALF: i128 = 500_000_000_000_000_000;

const LIMIT: i128 = 1_000_000_000_000_000_000_000_000_000_000_000_000;

/// A decimal number with at most 18 digits before the point and 18 behind it.
/// Contracts see it as a whole number, in units of `10^-18`.
#[derive(Clone, Copy, PartialEq, Eq)]
pub struct Dec {
    pub(crate) units: i128,
}

impl Model for Dec {
    ghost use Rattle.std.specs.Prelude.{ℤ};
    ghost use Rattle.inv_decimal.specs.Number.{IsDecimal};

    ghost Value = { ℤ };

    ghost view = { λ d. d.units };

    ghost invariant = { λ d. IsDecimal d.units };

    ghost inverse = { λ z. record { units = z } };
}

impl Dec {
    /// The number that the text writes: an optional sign, digits and an optional point, with a
    /// digit on at least one side of it. Behind leading zeros at most 18 digits stand before the
    /// point, and at most 18 behind it. No exponent, no white space.
    #[tactic(auto, unfolding(crate::specs::WrittenNumber::read_decimal))]
    pub fn read(text: &str) -> Option<Dec>
        ensures { result ≡ read_decimal (chars text.now) }
    {
        let scaled = Scaled::read(text)?;
        Some(scaled.value())
    }

    /// The exact sum.
    #[tactic(auto, unfolding(crate::specs::Arithmetic::sum_of))]
    pub fn add(&self, other: &Dec) -> Result<Dec, Overflow>
        ensures { result ≡ sum_of self.now other.now }
    {
        Dec::ranged(self.units + other.units)
    }

    /// The exact difference.
    #[tactic(auto, unfolding(crate::specs::Arithmetic::difference_of))]
    pub fn sub(&self, other: &Dec) -> Result<Dec, Overflow>
        ensures { result ≡ difference_of self.now other.now }
    {
        Dec::ranged(self.units - other.units)
    }

    /// The product, cut towards zero behind 18 digits.
    pub fn mul(&self, other: &Dec) -> Result<Dec, Overflow>
        ensures { result ≡ product_of self.now other.now }
    {
        let negative = self.is_negative() != other.is_negative();
        match wide::scaled_product(self.magnitude(), other.magnitude()) {
            Some(magnitude) => Ok(Dec::from_parts(negative, magnitude)),
            None => Err(Overflow),
        }
    }

    /// The quotient, cut towards zero behind 18 digits.
    #[tactic(auto, unfolding(crate::specs::Arithmetic::quotient_of))]
    pub fn div(&self, other: &Dec) -> Result<Dec, DecFault>
        ensures { result ≡ quotient_of self.now other.now }
    {
        if other.units == 0 {
            return Err(DecFault::DivisionByZero);
        }
        let negative = self.is_negative() != other.is_negative();
        match wide::scaled_quotient(self.magnitude(), other.magnitude()) {
            Some(magnitude) => Ok(Dec::from_parts(negative, magnitude)),
            None => Err(DecFault::Overflow),
        }
    }

    /// The quotient, cut towards zero to a whole number.
    #[tactic(auto, unfolding(crate::specs::Arithmetic::whole_quotient_of))]
    pub fn idiv(&self, other: &Dec) -> Result<Dec, DecFault>
        ensures { result ≡ whole_quotient_of self.now other.now }
    {
        if other.units == 0 {
            return Err(DecFault::DivisionByZero);
        }
        let whole = self.units / other.units;
        if -UNIT < whole && whole < UNIT {
            Ok(Dec {
                units: whole * UNIT,
            })
        } else {
            Err(DecFault::Overflow)
        }
    }

    /// What `idiv` leaves, with the sign of `self`.
    #[tactic(auto, unfolding(crate::specs::Arithmetic::remainder_of))]
    pub fn rem(&self, other: &Dec) -> Result<Dec, DivisionByZero>
        ensures { result ≡ remainder_of self.now other.now }
    {
        if other.units == 0 {
            return Err(DivisionByZero);
        }
        Ok(Dec {
            units: self.units % other.units,
        })
    }

    /// The greatest whole number that is not above this and a half: halves go up.
    #[tactic(auto, unfolding(crate::specs::Arithmetic::rounded))]
    pub fn round(&self) -> Result<Dec, Overflow>
        ensures { result ≡ rounded self.now }
    {
        Dec::ranged(floor_units(self.units + HALF))
    }

    /// The greatest whole number that is not above this one.
    #[tactic(auto, unfolding(crate::specs::Arithmetic::rounded_down))]
    pub fn floor(&self) -> Result<Dec, Overflow>
        ensures { result ≡ rounded_down self.now }
    {
        Dec::ranged(floor_units(self.units))
    }

    /// The least whole number that is not below this one.
    #[tactic(auto, unfolding(crate::specs::Arithmetic::rounded_up))]
    pub fn ceiling(&self) -> Result<Dec, Overflow>
        ensures { result ≡ rounded_up self.now }
    {
        Dec::ranged(-floor_units(-self.units))
    }

    /// The nearest whole number of hundredths: halves go away from zero.
    pub fn to_hundredth(&self) -> Result<Dec, Overflow>
        ensures { result ≡ nearest_hundredth self.now }
    {
        match wide::whole_hundredths(self.magnitude()) {
            Some(magnitude) => Ok(Dec::from_parts(self.is_negative(), magnitude)),
            None => Err(Overflow),
        }
    }

    /// The number with the other sign.
    pub fn neg(&self) -> Dec
        ensures { result ≡ neg_ℤ self.now }
    {
        Dec { units: -self.units }
    }

    /// The magnitude.
    pub fn abs(&self) -> Dec
        ensures { result ≡ pos (unsigned_abs self.now) }
    {
        Dec {
            units: self.units.abs(),
        }
    }

    /// The order of the values.
    pub fn cmp(&self, other: &Dec) -> Ordering
        ensures order { result ≡ int_cmp self.now other.now }
        ensures in_range { IsDecimal self.now × IsDecimal other.now }
    {
        self.units.cmp(&other.units)
    }

    /// Puts the shortest written form at the front of the buffer, leaves the rest as it was, and
    /// answers how many bytes that form has.
    pub fn print(&self, buf: &mut [u8; 40]) -> usize
        ensures text { buf.new ≡ decimal_text self.now ++ drop result buf.old }
        ensures len { result ≡ length (decimal_text self.now) }
        ensures short { result ≤ 38 }
        ensures in_range { IsDecimal self.now }
    {
        let (whole, rest) = self.parts();
        let (digits, fraction) = significant_digits(rest);
        print_number(self.is_negative(), whole, digits, fraction, buf)
    }

    /// The number with that sign and magnitude, in units.
    pub(crate) fn from_parts(negative: bool, magnitude: u128) -> Dec
        requires { magnitude < 10 ^ 36 }
        ensures { result ≡ with_sign negative magnitude }
    {
        let units = magnitude as i128;
        Dec {
            units: if negative { -units } else { units },
        }
    }

    /// How many units the number is away from zero.
    pub(crate) fn magnitude(&self) -> u128
        ensures value { result ≡ unsigned_abs self.now }
        ensures bound { result < 10 ^ 36 }
    {
        self.units.unsigned_abs()
    }

    /// The whole part of the magnitude, and the 18 digits behind the point.
    pub(crate) fn parts(&self) -> (u64, u64)
        ensures whole { result.0 ≡ unsigned_abs self.now / 10 ^ 18 }
        ensures rest { result.1 ≡ unsigned_abs self.now % 10 ^ 18 }
        ensures bound { result.0 < 10 ^ 18 }
    {
        let (whole, rest) = wide::split(self.magnitude());
        (whole as u64, rest as u64)
    }

    /// Whether the number is below zero.
    pub(crate) fn is_negative(&self) -> bool
        ensures { result ≡ is_negative self.now }
    {
        self.units < 0
    }

    /// The number of those units, if there is one.
    fn ranged(units: i128) -> Result<Dec, Overflow>
        ensures { result ≡ in_range units }
    {
        if -LIMIT < units && units < LIMIT {
            Ok(Dec { units })
        } else {
            Err(Overflow)
        }
    }
}

/// The units of the greatest whole number that is not above that many.
fn floor_units(units: i128) -> i128
    requires { unsigned_abs units < 2 * 10 ^ 36 }
    ensures { result ≡ floor_of units }
{
    units - units.rem_euclid(UNIT)
}
