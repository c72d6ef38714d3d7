ghost use Rattle.std.specs.Prelude.{◌≡◌, ◌≤◌, ◌<◌, ◌-◌, ◌^◌, length, replicate, ◌++◌, IfSome};
ghost use Rattle.xpath_tokens.specs.Tokens as spec;

use crate::pieces::split;
use crate::scanning::is_digit;
use crate::token::Number;

/// The parts of a number are below this.
const LIMIT: u64 = 1_000_000_000_000_000_000;

/// How many digits of a fraction count, and may be written.
const FRACTION_DIGITS: usize = 18;

fn digit_of(c: char) -> u64
    ensures exact { result ≡ spec.digit_of c }
    ensures within { result ≤ 9 }
{
    if is_digit(c) {
        u64::from(u32::from(c)) - 48
    } else {
        0
    }
}

/// The value of the digits, where it is below the limit.
fn value_of(digits: &[char]) -> Option<u64>
    ensures exact { result ≡ spec.below_limit (spec.value_of 0 digits.now) }
    ensures within { IfSome result (λ value. value < 10 ^ 18) }
{
    let mut value: u64 = 0;
    'digits: for (i, c) in digits.iter().enumerate() {
        value = value * 10 + digit_of(*c);
        if value >= LIMIT {
            return None;
        }
    }
    Some(value)
}

/// The value with so many zeros behind it, where that is below the limit.
fn with_zeros(value: u64, zeros: usize) -> Option<u64>
    requires { value < 10 ^ 18 }
    ensures exact { result ≡ spec.below_limit (spec.value_of value (replicate zeros 48)) }
    ensures within { IfSome result (λ filled. filled < 10 ^ 18) }
{
    let mut filled = value;
    'zeros: for i in 0..zeros {
        filled *= 10;
        if filled >= LIMIT {
            return None;
        }
    }
    Some(filled)
}

/// The value of the digits with zeros behind them up to 18, where it is below the limit.
fn fraction_of(digits: &[char]) -> Option<u64>
    requires { length digits.now ≤ 18 }
    ensures exact { result ≡ spec.below_limit (spec.value_of 0 (digits.now ++ replicate (18 - length digits.now) 48)) }
    ensures within { IfSome result (λ value. value < 10 ^ 18) }
{
    match value_of(digits) {
        Some(value) => with_zeros(value, FRACTION_DIGITS - digits.len()),
        None => None,
    }
}

/// The number of the word, none where it is too wide.
pub fn number_of(word: &[char]) -> Option<Number>
    ensures { result ≡ spec.number_of word.now }
{
    let (whole, fraction) = split(word, '.');
    if fraction.len() > FRACTION_DIGITS {
        return None;
    }
    let whole = value_of(whole)?;
    let fraction = fraction_of(fraction)?;
    Some(Number::new(whole, fraction))
}
