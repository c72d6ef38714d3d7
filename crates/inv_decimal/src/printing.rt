//! Digits into a buffer.

ghost use Rattle.std.specs.Prelude.{◌≡◌, ℕ, ◌+◌, ◌*◌, ◌/◌, ◌^◌, ◌<◌, ◌≤◌, ◌++◌, ◌∷◌, [], length, drop, take, decimal};
ghost use Rattle.std.specs.Fmt.{sign_text};
ghost use Rattle.inv_decimal.specs.Digits.{last_digits, without_trailing_zeros, overwritten};
ghost use Rattle.inv_decimal.specs.WrittenNumber.{behind_point};

/// How many of the 18 digits behind the point come before the zeros at their end, and the number
/// that those write.
pub(crate) fn significant_digits(fraction: u64) -> (usize, u64)
    ensures at_most { result.0 ≤ 18 }
    ensures digits { last_digits result.0 result.1
        ≡ without_trailing_zeros (last_digits 18 fraction) }
{
    let mut digits = 18;
    let mut rest = fraction;
    while digits > 0 && rest % 10 == 0 {
        rest /= 10;
        digits -= 1;
    }
    (digits, rest)
}

/// Puts a number at the front of the buffer, with so many digits behind the point, and answers
/// its length.
pub(crate) fn print_number(
    negative: bool,
    whole: u64,
    digits: usize,
    fraction: u64,
    buf: &mut [u8; 40],
) -> usize
    requires whole_in { whole < 10 ^ 18 }
    requires digits_in { digits ≤ 18 }
    ensures text { buf.new ≡ sign_text negative
        ++ (decimal whole ++ behind_point (last_digits digits fraction)) ++ drop result buf.old }
    ensures len { result ≡ length (sign_text negative
        ++ (decimal whole ++ behind_point (last_digits digits fraction))) }
    ensures short { result ≤ 38 }
{
    let start = print_sign(negative, buf);
    let point = start + digit_count(whole);
    write_last_digits(&mut buf[start..point], whole);
    print_fraction(digits, fraction, buf, point)
}

fn print_sign(negative: bool, buf: &mut [u8; 40]) -> usize
    ensures text { buf.new ≡ overwritten buf.old 0 (sign_text negative) }
    ensures len { result ≡ length (sign_text negative) }
{
    if negative {
        buf[0] = b'-';
        1
    } else {
        0
    }
}

fn print_fraction(digits: usize, fraction: u64, buf: &mut [u8; 40], at: usize) -> usize
    requires { at + digits < 40 }
    ensures text { buf.new ≡ overwritten buf.old at (behind_point (last_digits digits fraction)) }
    ensures len { result ≡ at + length (behind_point (last_digits digits fraction)) }
{
    if digits == 0 {
        return at;
    }
    buf[at] = b'.';
    let end = at + 1 + digits;
    write_last_digits(&mut buf[at + 1..end], fraction);
    end
}

/// How many digits the number has.
fn digit_count(value: u64) -> usize
    ensures { result ≡ length (decimal value) }
{
    let mut count = 1;
    let mut rest = value / 10;
    while rest > 0 {
        rest /= 10;
        count += 1;
    }
    count
}

/// Fills the buffer with the last digits of the number.
pub(crate) fn write_last_digits(out: &mut [u8], value: u64)
    ensures { out.new ≡ last_digits (length out.old) value }
{
    let mut rest = value;
    for i in (0..out.len()).rev() {
        out[i] = b'0' + (rest % 10) as u8;
        rest /= 10;
    }
}
