//! The parts of a written number.

ghost use Rattle.std.specs.Prelude.{◌≡◌, ℕ, ◌^◌, ◌<◌, ◌≤◌, IfSome, length};
ghost use Rattle.std.specs.List.{before_first, after_first, position};
ghost use Rattle.std.specs.Str.Parse.{starts_with_minus, without_leading_sign};
ghost use Rattle.inv_decimal.specs.WrittenNumber.{is_point, written_units};
ghost use Rattle.inv_decimal.specs.Digits.{digits_number};

use crate::wide::UNIT;

/// Whether the text begins with a minus, and what stands behind its sign.
pub(crate) fn split_sign(text: &[u8]) -> (bool, &[u8])
    ensures minus { result.0 ≡ starts_with_minus text.now }
    ensures rest { result.1.now ≡ without_leading_sign text.now }
{
    match text {
        [b'-', unsigned @ ..] => (true, unsigned),
        [b'+', unsigned @ ..] => (false, unsigned),
        _ => (false, text),
    }
}

/// What stands before the first point, and what stands behind it.
pub(crate) fn split_point(text: &[u8]) -> (&[u8], &[u8])
    ensures before { result.0.now ≡ before_first is_point text.now }
    ensures behind { result.1.now ≡ after_first is_point text.now }
{
    match point_index(text) {
        Some(at) => (&text[..at], &text[at + 1..]),
        None => (text, &[]),
    }
}

/// Where the first point stands.
fn point_index(text: &[u8]) -> Option<usize>
    ensures { result ≡ position is_point text.now }
{
    text.iter().position(|c| *c == b'.')
}

/// How many units the digits before and behind the point write, if they have the form.
pub(crate) fn units(whole: &[u8], fraction: &[u8]) -> Option<u128>
    ensures value { result ≡ written_units whole.now fraction.now }
    ensures bound { IfSome result (λ n. n < 10 ^ 36) }
    ensures digits { IfSome result (λ n. length fraction.now ≤ 18) }
{
    if whole.len() + fraction.len() == 0 {
        return None;
    }
    if fraction.len() > 18 {
        return None;
    }
    let ones = number(whole)?;
    let rest = number(fraction)?;
    let unused = 10u128.pow(18 - fraction.len() as u32);
    Some(u128::from(ones) * UNIT + u128::from(rest) * unused)
}

/// The number that the digits write, if they are digits alone and it is below `10^18`.
pub(crate) fn number(digits: &[u8]) -> Option<u64>
    ensures { result ≡ digits_number digits.now }
{
    let mut value = 0u64;
    for digit in digits {
        if !digit.is_ascii_digit() || value >= 100_000_000_000_000_000 {
            return None;
        }
        value = value * 10 + u64::from(*digit - b'0');
    }
    Some(value)
}
