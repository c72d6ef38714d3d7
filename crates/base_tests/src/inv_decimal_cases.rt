//! Numbers and days. The expected values come from Python's integers and calendar.

use crate::texts::halves;
use inv_decimal::{Day, Dec, Scaled};
use std::alloc::{AllocError, Global};
use std::fmt::Debug;
use std::str::from_utf8;
use std::test::Fail;
use test_rows::{Holds, Shown, expect_rows, expect_shown};

/// Calls of two numbers, and what they print or answer.
const PAIRS: &str = "\
0.1 + 0.2 > 0.3
0.1 - 0.2 > -0.1
999999999999999999 + 1 > Overflow
999999999999999999 - 1 > 999999999999999998
999999999999999999.999999999999999999 + 0 > 999999999999999999.999999999999999999
999999999999999999.999999999999999999 + 0.000000000000000001 > Overflow
999999999999999999.999999999999999999 - 0.000000000000000001 > 999999999999999999.999999999999999998
-999999999999999999.999999999999999999 + 0.000000000000000001 > -999999999999999999.999999999999999998
-999999999999999999.999999999999999999 - 0.000000000000000001 > Overflow
999999999999999999.999999999999999999 - -999999999999999999.999999999999999999 > Overflow
-2.5 + 2.25 > -0.25
0 - 0 > 0
0.000000000000000001 * 0.5 > 0
-0.000000000000000001 * 0.5 > 0
1.5 * -1.5 > -2.25
-1.000000001 * -1.000000001 > 1.000000002000000001
999999999.999999999 * 1000000000 > 999999999999999999
1000000000 * 1000000000 > Overflow
999999999999999999.999999999999999999 * -1 > -999999999999999999.999999999999999999
999999999999999999.999999999999999999 * 1.000000000000000001 > Overflow
999999999999999999.999999999999999999 * 999999999999999999.999999999999999999 > Overflow
0.999999999999999999 * 0.999999999999999999 > 0.999999999999999998
123456789.123456789 * 987654.321987654 > 121932631356500.491717573860483006
1 div 3 > 0.333333333333333333
2 div -3 > -0.666666666666666666
1 div 0.000000000000000001 > Overflow
0.999999999999999999 div 0.000000000000000001 > 999999999999999999
999999999999999999.999999999999999999 div 1 > 999999999999999999.999999999999999999
1 div 999999999999999999.999999999999999999 > 0.000000000000000001
1 div 0 > DivisionByZero
0 div 0 > DivisionByZero
10 div 1234567890123.5 > 0.0000000000081
-98765432109.8765 div 12345678901.23 > -8.000000072902957156
999999999999999999.999999999999999999 div 100.000000000000000001 > 9999999999999999.999899999999999999
1 div 100 > 0.01
1 div 100000000000 > 0.00000000001
1 div 100000000000.000000000000000001 > 0.000000000009999999
-0.000000000000000001 div 2 > 0
-7 idiv 2 > -3
7 idiv -2 > -3
1 idiv 0.000000000000000001 > Overflow
0.999999999999999999 idiv 0.000000000000000001 > 999999999999999999
1 idiv 0 > DivisionByZero
-7 mod 2 > -1
7 mod -2 > 1
-98765432109.8765 mod 12345678901.23 > -900.0365
-0.000000000000000001 mod 2 > -0.000000000000000001
1 mod 0.000000000000000001 > 0
1 mod 0 > DivisionByZero
-1 cmp 0.5 > Less
-0.0 cmp 0 > Equal
-0.5 cmp -1 > Greater";

/// Calls of one number, and what they print or answer.
const SINGLES: &str = "\
round 2.5 > 3
round -2.5 > -2
round -2.6 > -3
round -0.5 > 0
round 0.000000000000000001 > 0
round 999999999999999999.5 > Overflow
round 999999999999999999.499999999999999999 > 999999999999999999
round -999999999999999999.5 > -999999999999999999
round -999999999999999999.500000000000000001 > Overflow
floor 2.5 > 2
floor -0.000000000000000001 > -1
floor -999999999999999999.5 > Overflow
floor 999999999999999999.999999999999999999 > 999999999999999999
to_hundredth 2.005 > 2.01
to_hundredth 2.004999999999999999 > 2
to_hundredth -2.005 > -2.01
to_hundredth -0.004 > 0
to_hundredth 999999999999999999.994 > 999999999999999999.99
to_hundredth 999999999999999999.995 > Overflow
ceiling -2.5 > -2
ceiling 0.000000000000000001 > 1
ceiling 999999999999999999.5 > Overflow
ceiling -999999999999999999.999999999999999999 > -999999999999999999
neg 7.50 > -7.5
neg -0 > 0
abs -999999999999999999.999999999999999999 > 999999999999999999.999999999999999999";

/// Texts, and how they are printed where they are numbers.
const WRITTEN: &str = "\
>None
 1>None
007.50>7.50
-0.0>0.0
+.5>0.5
1.>1
-00999999999999999999.999999999999999999>-999999999999999999.999999999999999999
-0.000000000000000000>0.000000000000000000
.>None
+>None
-.>None
1e3>None
+-1>None
1.2.3>None
1,0>None
\u{663}>None
1\u{20ac}>None
1111111111111111111>None
1000000000000000000>None
1.0000000000000000000>None";

fn push_number(line: &mut String, number: &Dec) -> Result<(), AllocError> {
    let mut buf = [0; 40];
    let len = number.print(&mut buf);
    line.push_str(from_utf8(&buf[..len]).unwrap_or("no text"))
}

fn push_outcome<E: Debug + Drop>(
    line: &mut String,
    outcome: Result<Dec, E>,
) -> Result<(), AllocError> {
    match outcome {
        Ok(number) => push_number(line, &number),
        Err(fault) => write!(line, "{fault:?}"),
    }
}

fn push_of_two(line: &mut String, x: &Dec, call: &str, y: &Dec) -> Result<(), AllocError> {
    match call {
        "+" => push_outcome(line, x.add(y)),
        "-" => push_outcome(line, x.sub(y)),
        "*" => push_outcome(line, x.mul(y)),
        "div" => push_outcome(line, x.div(y)),
        "idiv" => push_outcome(line, x.idiv(y)),
        "mod" => push_outcome(line, x.rem(y)),
        _ => write!(line, "{:?}", x.cmp(y)),
    }
}

fn push_of_one(line: &mut String, call: &str, x: &Dec) -> Result<(), AllocError> {
    match call {
        "round" => push_outcome(line, x.round()),
        "floor" => push_outcome(line, x.floor()),
        "ceiling" => push_outcome(line, x.ceiling()),
        "to_hundredth" => push_outcome(line, x.to_hundredth()),
        "neg" => push_number(line, &x.neg()),
        _ => push_number(line, &x.abs()),
    }
}

struct Pairs;

impl Shown for Pairs {
    fn shown(&self, alloc: Global, given: &'static str) -> Result<String, Fail> {
        let (x, rest) = halves(given, ' ');
        let (call, y) = halves(rest, ' ');
        let mut line = String::new(alloc);
        if let (Some(x), Some(y)) = (Dec::read(x), Dec::read(y)) {
            push_of_two(&mut line, &x, call, &y)?;
        }
        Ok(line)
    }
}

#[test]
fn calls_of_two_numbers(rt: HostRuntime) -> Result<(), Fail> {
    expect_shown(rt.alloc(), &Pairs, " > ", PAIRS)
}

struct Singles;

impl Shown for Singles {
    fn shown(&self, alloc: Global, given: &'static str) -> Result<String, Fail> {
        let (call, x) = halves(given, ' ');
        let mut line = String::new(alloc);
        if let Some(x) = Dec::read(x) {
            push_of_one(&mut line, call, &x)?;
        }
        Ok(line)
    }
}

#[test]
fn calls_of_one_number(rt: HostRuntime) -> Result<(), Fail> {
    expect_shown(rt.alloc(), &Singles, " > ", SINGLES)
}

/// Whether a number is printed so, and has as many digits behind its point.
fn is_printed(number: &Scaled, want: &str) -> bool {
    let mut buf = [0; 40];
    let len = number.print(&mut buf);
    let digits = match want.split_once('.') {
        Some((_, fraction)) => fraction.len(),
        None => 0,
    };
    &buf[..len] == want.as_bytes() && usize::from(number.digits()) == digits
}

fn is_read(text: &str, want: &str) -> bool {
    match Scaled::read(text) {
        Some(read) => is_printed(&read, want) && Dec::read(text) == Some(read.value()),
        None => want == "None" && Dec::read(text).is_none(),
    }
}

struct WrittenNumbers;

impl Holds for WrittenNumbers {
    fn holds(&self, _: Global, row: &'static str) -> Result<bool, Fail> {
        let (text, want) = halves(row, '>');
        Ok(is_read(text, want))
    }
}

#[test]
fn written_numbers(rt: HostRuntime) -> Result<(), Fail> {
    expect_rows(rt.alloc(), &WrittenNumbers, WRITTEN)
}

/// The four years round each leap rule, with the days of their February.
const FEBRUARIES: &str = "\
1899 28
1900 28
1901 28
1902 28
1999 28
2000 29
2001 28
2002 28
2023 28
2024 29
2025 28
2026 28
2099 28
2100 28
2101 28
2102 28";

fn last_day(month: u8, february: u8) -> u8 {
    match month {
        2 => february,
        4 | 6 | 9 | 11 => 30,
        1..=12 => 31,
        _ => 0,
    }
}

fn is_printed_so(day: &Day, plain: &str, dashed: &str) -> bool {
    let mut short = [0; 8];
    let mut long = [0; 10];
    day.print_plain(&mut short);
    day.print_dashed(&mut long);
    short.as_slice() == plain.as_bytes() && long.as_slice() == dashed.as_bytes()
}

/// Whether both texts are read as one day that is printed so, or neither where there is no such day.
fn is_one_day(plain: &str, dashed: &str, exists: bool) -> bool {
    match Day::read_plain(plain) {
        Some(day) => {
            exists && is_printed_so(&day, plain, dashed) && Day::read_dashed(dashed) == Some(day)
        }
        None => !exists && Day::read_dashed(dashed).is_none(),
    }
}

fn day_is_right(
    alloc: Global,
    year: u16,
    month: u8,
    day: u8,
    exists: bool,
) -> Result<bool, AllocError> {
    let plain = format!(in alloc; "{year:04}{month:02}{day:02}")?;
    let dashed = format!(in alloc; "{year:04}-{month:02}-{day:02}")?;
    Ok(is_one_day(plain.as_str(), dashed.as_str(), exists))
}

fn has_days(alloc: Global, year: u16, month: u8, last: u8) -> Result<bool, AllocError> {
    let mut held = true;
    for day in 0..33 {
        let exists = 0 < day && day <= last;
        held &= day_is_right(alloc, year, month, day, exists)?;
    }
    Ok(held)
}

/// Whether each month of the year has its days, and no more.
fn has_months(alloc: Global, year: u16, february: u8) -> Result<bool, AllocError> {
    let mut held = true;
    for month in 0..14 {
        held &= has_days(alloc, year, month, last_day(month, february))?;
    }
    Ok(held)
}

struct Februaries;

impl Holds for Februaries {
    fn holds(&self, alloc: Global, row: &'static str) -> Result<bool, Fail> {
        let (year, february) = halves(row, ' ');
        let year = year.parse().unwrap_or(0);
        Ok(has_months(alloc, year, february.parse().unwrap_or(0))?)
    }
}

#[test]
fn days_of_years(rt: HostRuntime) -> Result<(), Fail> {
    expect_rows(rt.alloc(), &Februaries, FEBRUARIES)
}

/// Texts in either form, in rising order where they are days, and whether there is such a day.
const DAYS: &str = "\
0000-01-01 no
0001-01-01 yes
1900-02-29 no
2023-12-31 yes
2024-01-01 yes
20240131 yes
20240201 yes
2024-02-29 yes
2023-02-29 no
2024-02-290 no
2024-2-029 no
2024/02/29 no
+024-02-29 no
2024-02-2\u{e9} no
2024022 no
2024022a no
202402290 no
9999-12-31 yes";

/// The day of a text that isn't before the last one, or the last one where the text is to be none.
fn day_behind(last: Day, text: &str, want: &str) -> Option<Day> {
    match Day::read_dashed(text).or(Day::read_plain(text)) {
        Some(day) => {
            let rises = last.cmp(&day).is_le() && day.cmp(&day).is_eq();
            (want == "yes" && rises).then_some(day)
        }
        None => (want == "no").then_some(last),
    }
}

fn expect_day(last: Day, row: &'static str) -> Result<Day, Fail> {
    let (text, want) = halves(row, ' ');
    Ok(day_behind(last, text, want).ok_or(row)?)
}

#[test]
fn written_days() -> Result<(), Fail> {
    let mut last = Day::read_plain("00010101").ok_or("day")?;
    for row in DAYS.lines() {
        last = expect_day(last, row)?;
    }
    Ok(())
}
