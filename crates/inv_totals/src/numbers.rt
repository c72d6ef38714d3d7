//! Numbers, or that one is out of range: the first that is out of range counts.
ghost use Rattle.std.specs.Prelude.{◌≡◌};
ghost use Rattle.inv_decimal.specs.Arithmetic.{sum_of};
ghost use Rattle.inv_totals.specs.Numbers as spec;

use inv_decimal::{Dec, Overflow};

/// A number, or that it is out of the range of numbers.
pub(crate) type Number = Result<Dec, Overflow>;

/// A sum with one number more.
pub(crate) fn added(sum: Number, number: Dec) -> Number
    ensures { result ≡ spec.then_ sum (λ s. sum_of s number) }
{
    match sum {
        Ok(sum) => sum.add(&number),
        Err(fault) => Err(fault),
    }
}

pub(crate) fn plus(a: Number, b: Number) -> Number
    ensures { result ≡ spec.plus a b }
{
    match b {
        Ok(b) => added(a, b),
        Err(fault) => match a {
            Ok(_) => Err(fault),
            Err(first) => Err(first),
        },
    }
}

pub(crate) fn minus(a: Number, b: Number) -> Number
    ensures { result ≡ spec.minus a b }
{
    match a {
        Ok(a) => match b {
            Ok(b) => a.sub(&b),
            Err(fault) => Err(fault),
        },
        Err(fault) => Err(fault),
    }
}

/// So many hundredths of an amount, to the nearest hundredth.
pub(crate) fn percentage(rate: Dec, amount: Dec) -> Number
    ensures { result ≡ spec.percentage rate amount }
{
    match amount.mul(&rate) {
        Ok(product) => hundredth_part(product),
        Err(fault) => Err(fault),
    }
}

/// The hundredth part, to the nearest hundredth.
fn hundredth_part(number: Dec) -> Number
    ensures { result ≡ spec.hundredth_part number }
{
    match number.div(&Dec::of_parts(100, 0)) {
        Ok(quotient) => quotient.to_hundredth(),
        Err(_) => Err(Overflow),
    }
}
