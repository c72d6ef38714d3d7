//! Products and quotients of magnitudes below `10^36`, in 128 bits.

ghost use Rattle.std.specs.Prelude.{◌≡◌, ◌*◌, ◌/◌, ◌%◌, ◌^◌, ◌<◌, ◌≤◌, Option, SomeIff};
ghost use Rattle.inv_decimal.specs.Arithmetic.{hundredths};

/// The units of one.
pub(crate) const UNIT: u128 = 1_000_000_000_000_000_000;

/// The units of a hundredth, and half of them.
const HUNDREDTH: u128 = 10_000_000_000_000_000;

const HALF_HUNDREDTH: u128 = 5_000_000_000_000_000;

/// The magnitude that is too large for a number, in units.
const LIMIT: u128 = 1_000_000_000_000_000_000_000_000_000_000_000_000;

/// The whole part and the rest of a magnitude, by one division.
pub(crate) fn split(magnitude: u128) -> (u128, u128)
    ensures whole { result.0 ≡ magnitude / 10 ^ 18 }
    ensures rest { result.1 ≡ magnitude % 10 ^ 18 }
{
    let whole = magnitude / UNIT;
    (whole, magnitude - whole * UNIT)
}

/// The nearest magnitude of whole hundredths, halves upwards, if it is below `10^36`.
pub(crate) fn whole_hundredths(magnitude: u128) -> Option<u128>
    requires { magnitude < 10 ^ 36 }
    ensures { SomeIff result (hundredths magnitude < 10 ^ 36) (hundredths magnitude) }
{
    let nearest = (magnitude + HALF_HUNDREDTH) / HUNDREDTH * HUNDREDTH;
    if nearest < LIMIT { Some(nearest) } else { None }
}

/// `a * b / 10^18`, if it is below `10^36`.
pub(crate) fn scaled_product(a: u128, b: u128) -> Option<u128>
    requires a_in { a < 10 ^ 36 }
    requires b_in { b < 10 ^ 36 }
    ensures { SomeIff result (a * b / 10 ^ 18 < 10 ^ 36) (a * b / 10 ^ 18) }
{
    let (a_whole, a_rest) = split(a);
    let (b_whole, b_rest) = split(b);
    let whole = a_whole * b_whole;
    if whole >= UNIT {
        return None;
    }
    let product = whole * UNIT + a_whole * b_rest + a_rest * b_whole + a_rest * b_rest / UNIT;
    if product < LIMIT { Some(product) } else { None }
}

/// `a * 10^18 / b`, if it is below `10^36`.
pub(crate) fn scaled_quotient(a: u128, b: u128) -> Option<u128>
    requires divisor { 0 < b }
    requires a_in { a < 10 ^ 36 }
    requires b_in { b < 10 ^ 36 }
    ensures { SomeIff result (a * 10 ^ 18 / b < 10 ^ 36) (a * 10 ^ 18 / b) }
{
    let whole = a / b;
    if whole >= UNIT {
        return None;
    }
    Some(whole * UNIT + fraction(a - whole * b, b))
}

/// `rest * 10^18 / divisor`, in as few steps as the divisor leaves room for.
fn fraction(rest: u128, divisor: u128) -> u128
    requires rest_in { rest < divisor }
    requires divisor_in { divisor < 10 ^ 36 }
    ensures { result ≡ rest * 10 ^ 18 / divisor }
{
    if divisor <= 100_000_000_000_000_000_000 {
        long_division(rest, divisor, UNIT, 1)
    } else if divisor <= 100_000_000_000_000_000_000_000_000_000 {
        long_division(rest, divisor, 1_000_000_000, 2)
    } else {
        long_division(rest, divisor, 100, 9)
    }
}

/// `rest * step^times / divisor`, a digit in base `step` at a time.
fn long_division(rest: u128, divisor: u128, step: u128, times: u32) -> u128
    requires rest_in { rest < divisor }
    requires divisor_in { divisor * step < 2 ^ 128 }
    requires step_in { 0 < step }
    requires quotient_in { step ^ times ≤ 10 ^ 18 }
    ensures { result ≡ rest * step ^ times / divisor }
{
    let mut quotient = 0;
    let mut left = rest;
    for _ in 0..times {
        left *= step;
        quotient = quotient * step + left / divisor;
        left %= divisor;
    }
    quotient
}
