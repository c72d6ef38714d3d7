//! Laws of numbers and days. Each call does nothing: what it ensures is the law.

ghost use Rattle.std.specs.Prelude.{◌≡◌, ◌↔◌, ◌⊎◌, ◌+◌, ◌<◌, ◌≤ℤ◌, ◌<ℤ◌, ◌+ℤ◌, ℕ, ℤ, pos, List, Some, Ok, IsTrue, unsigned_abs};
ghost use Rattle.std.specs.Cmp.{IsTotalOrder};
ghost use Rattle.std.specs.Int.{is_negative};
ghost use Rattle.std.specs.Ordering.{int_cmp, MatchOrdering};
ghost use Rattle.std.specs.declared.cmp.Ordering.TheVariants.{Equal};
ghost use Rattle.std.specs.Str.{IsAscii};
ghost use Rattle.inv_decimal.specs.Number.{unit, IsDecimal, ScaledDecimal, IsScaled};
ghost use Rattle.inv_decimal.specs.Arithmetic.{floor_of, sum_of, difference_of, product_of, whole_quotient_of, remainder_of};
ghost use Rattle.inv_decimal.specs.WrittenNumber.{read_decimal, decimal_text, read_scaled, scaled_text, IsWritten};
ghost use Rattle.inv_decimal.specs.CivilDay.{CivilDay, IsDay, is_day, day_cmp};
ghost use Rattle.inv_decimal.specs.WrittenDay.{read_plain_day, read_dashed_day, plain_day_text, dashed_day_text};

/// The readers read the texts of the grammar, and nothing else.
pub fn readings_follow_the_grammar()
    ensures { (text : List ℕ) (s : ScaledDecimal)
        → ((read_scaled text ≡ Some s) ↔ IsWritten text s) }
{}

/// A printed number is read back as that number.
pub fn printed_numbers_are_read()
    ensures decimal { (z : ℤ) → IsDecimal z → read_decimal (decimal_text z) ≡ Some z }
    ensures scaled { (s : ScaledDecimal) → IsScaled s → read_scaled (scaled_text s) ≡ Some s }
{}

/// A printed day is read back as that day.
pub fn printed_days_are_read()
    ensures plain { (d : CivilDay) → IsDay d → read_plain_day (plain_day_text d) ≡ Some d }
    ensures dashed { (d : CivilDay) → IsDay d → read_dashed_day (dashed_day_text d) ≡ Some d }
{}

/// Printed texts are ASCII, so their bytes are their characters.
pub fn printed_texts_are_ascii()
    ensures decimal { (z : ℤ) → IsDecimal z → IsAscii (decimal_text z) }
    ensures scaled { (s : ScaledDecimal) → IsScaled s → IsAscii (scaled_text s) }
    ensures plain { (d : CivilDay) → IsDay d → IsAscii (plain_day_text d) }
    ensures dashed { (d : CivilDay) → IsDay d → IsAscii (dashed_day_text d) }
{}

/// What is read is a number or a day that there is.
pub fn readings_are_in_range()
    ensures decimal { (cs : List ℕ) (z : ℤ) → read_decimal cs ≡ Some z → IsDecimal z }
    ensures scaled { (cs : List ℕ) (s : ScaledDecimal) → read_scaled cs ≡ Some s → IsScaled s }
    ensures plain { (cs : List ℕ) (d : CivilDay) → read_plain_day cs ≡ Some d → IsDay d }
    ensures dashed { (cs : List ℕ) (d : CivilDay) → read_dashed_day cs ≡ Some d → IsDay d }
{}

/// The order of numbers is total, and it is that of their values.
pub fn numbers_are_ordered()
    ensures total { IsTotalOrder int_cmp }
    ensures values { (x y : ℤ) → MatchOrdering (int_cmp x y) (x <ℤ y) (x ≡ y) (y <ℤ x) }
{}

/// The order of days is total, and only a day itself ties with it.
pub fn days_are_ordered()
    ensures total { IsTotalOrder day_cmp }
    ensures equal { (a b : CivilDay) → day_cmp a b ≡ Equal → a ≡ b }
{}

/// Sums and differences undo each other.
pub fn sums_undo_differences()
    ensures sum { (x y z : ℤ) → IsDecimal x → sum_of x y ≡ Ok z → difference_of z y ≡ Ok x }
    ensures difference { (x y z : ℤ)
        → IsDecimal x → difference_of x y ≡ Ok z → sum_of z y ≡ Ok x }
{}

/// The whole quotient times the divisor, and the remainder, make up the dividend. The remainder is
/// smaller than the divisor, and has the sign of the dividend.
pub fn remainders_fit_quotients()
    ensures whole { (x y q r : ℤ)
        → IsDecimal x → whole_quotient_of x y ≡ Ok q → remainder_of x y ≡ Ok r
        → (p : ℤ) × (product_of q y ≡ Ok p) × (sum_of p r ≡ Ok x) }
    ensures small { (x y r : ℤ) → remainder_of x y ≡ Ok r → unsigned_abs r < unsigned_abs y }
    ensures sign { (x y r : ℤ)
        → remainder_of x y ≡ Ok r → (r ≡ pos 0) ⊎ (is_negative r ≡ is_negative x) }
{}

/// A number lies between its floor and the next whole number.
pub fn floors_are_next_below()
    ensures below { (z : ℤ) → floor_of z ≤ℤ z }
    ensures next { (z : ℤ) → z <ℤ (floor_of z +ℤ pos unit) }
{}

/// The test of a day says whether the calendar has it.
pub fn days_are_tested()
    ensures { (d : CivilDay) → (IsTrue (is_day d) ↔ IsDay d) }
{}
