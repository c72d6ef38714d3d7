ghost use Rattle.std.specs.Prelude.{◌≡◌, ◌≤◌, ◌++◌, length, drop};
ghost use Rattle.std.specs.Str.{chars};
ghost use Rattle.inv_decimal.specs.Number.{IsScaled};
ghost use Rattle.inv_decimal.specs.WrittenNumber.{read_scaled, scaled_text};

use crate::decimal::Dec;
use crate::printing::print_number;
use crate::reading::{split_point, split_sign, units};
use std::marker::Model;

/// A decimal number that keeps how many digits behind the point it was written with.
/// There are at most 18 of them, and the number has no more.
#[derive(Clone, Copy, PartialEq, Eq)]
pub struct Scaled {
    value: Dec,
    digits: u8,
}

impl Model for Scaled {
    ghost use Rattle.inv_decimal.specs.Number.{ScaledDecimal, IsScaled};

    ghost Value = { ScaledDecimal };

    ghost view = { λ s. record { value = s.value; digits = s.digits } };

    ghost invariant = { λ s. IsScaled (record { value = s.value; digits = s.digits }) };

    ghost inverse = { λ s. record { value = s.value; digits = s.digits } };
}

impl Scaled {
    /// The number that the text writes, in the form that `Dec::read` reads.
    pub fn read(text: &str) -> Option<Scaled>
        ensures { result ≡ read_scaled (chars text.now) }
    {
        read_bytes(text.as_bytes())
    }

    /// The number itself.
    pub fn value(&self) -> Dec
        ensures value { result ≡ self.now.value }
        ensures in_range { IsScaled self.now }
    {
        self.value
    }

    /// How many digits are written behind the point.
    pub fn digits(&self) -> u8
        ensures digits { result ≡ self.now.digits }
        ensures in_range { IsScaled self.now }
    {
        self.digits
    }

    /// Puts the written form with exactly its digits at the front of the buffer, leaves the rest
    /// as it was, and answers how many bytes that form has. Zero has no sign.
    pub fn print(&self, buf: &mut [u8; 40]) -> usize
        ensures text { buf.new ≡ scaled_text self.now ++ drop result buf.old }
        ensures len { result ≡ length (scaled_text self.now) }
        ensures short { result ≤ 38 }
        ensures in_range { IsScaled self.now }
    {
        let (whole, rest) = self.value.parts();
        let digits = usize::from(self.digits);
        let unused = 10u64.pow(18 - u32::from(self.digits));
        print_number(self.value.is_negative(), whole, digits, rest / unused, buf)
    }
}

fn read_bytes(text: &[u8]) -> Option<Scaled>
    ensures { result ≡ read_scaled text.now }
{
    let (negative, unsigned) = split_sign(text);
    let (whole, fraction) = split_point(unsigned);
    let magnitude = units(whole, fraction)?;
    Some(Scaled {
        value: Dec::from_parts(negative, magnitude),
        digits: fraction.len() as u8,
    })
}
