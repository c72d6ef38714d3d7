//! Parts of texts by places, which count from 1 (Functions and Operators, section 7.4.3).
ghost use Rattle.std.specs.Prelude.{◌≡◌, ◌≤◌, ◌^◌, length, take, drop, chars, string_bytes, IfOk, pos, ◌+ℤ◌, int_le, int_lt, ◌&&◌, unsigned_abs};
ghost use Rattle.xpath_meaning.specs.Texts as meaning;
ghost use Rattle.xpath_values.specs.Places as spec;

use std::alloc::{AllocError, Global};

/// How many characters come before the place.
fn before_place(start: i64) -> usize
    requires { unsigned_abs start ≤ 2 ^ 62 }
    ensures { result ≡ spec.skipped start }
{
    if start <= 1 { 0 } else { (start - 1) as usize }
}

/// How many places from 1 on lie between the two.
fn places_between(start: i64, end: i64) -> usize
    requires start_in { unsigned_abs start ≤ 2 ^ 62 }
    requires end_in { unsigned_abs end ≤ 2 ^ 62 }
    ensures { result ≡ spec.kept start end }
{
    let first = if start <= 1 { 1 } else { start };
    if end <= first {
        0
    } else {
        (end - first) as usize
    }
}

/// The characters from the place on.
pub(crate) fn from_place(alloc: Global, text: &str, start: i64) -> Result<String, AllocError>
    requires { unsigned_abs start ≤ 2 ^ 62 }
    ensures { IfOk result (λ s. chars (string_bytes s) ≡ meaning.at_places (λ place. int_le start (pos place)) 1 (chars text.now)) }
{
    text.chars().skip(before_place(start)).collect(alloc)
}

/// The characters from the place on, up to the end, which is left out.
pub(crate) fn between_places(
    alloc: Global,
    text: &str,
    start: i64,
    end: i64,
) -> Result<String, AllocError>
    requires start_in { unsigned_abs start ≤ 2 ^ 62 }
    requires end_in { unsigned_abs end ≤ 2 ^ 62 }
    ensures { IfOk result (λ s. chars (string_bytes s) ≡ meaning.at_places (λ place. int_le start (pos place) && int_lt (pos place) end) 1 (chars text.now)) }
{
    let count = places_between(start, end);
    text.chars()
        .skip(before_place(start))
        .take(count)
        .collect(alloc)
}
