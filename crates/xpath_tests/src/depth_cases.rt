//! Deep and long texts.

use crate::made::Made;
use crate::nestings::{Nesting, columns, expect_nestings, is_made_of};
use std::alloc::{AllocError, Global};
use std::test::Fail;
use test_rows::{Holds, expect_rows};

/// Of each row how many levels one nesting adds, and what stands before, in and behind it.
const NESTINGS: &str = "\
1|(|1|)
1|a[|1|]
1|f(|1|)
1|f(1, |1|)
1|if (|1|) then 1 else 1
1|if (1) then |1| else 1
1|if (1) then 1 else |1|
1|for $x in |1| return 1
1|for $x in 1 return |1|
1|some $x in 1 satisfies |1|
2|-(|1|)
2|(1 + |1|)
2|(1, |1|)
2|(|1| cast as t)
2|(|1| castable as t)
2|a/b[|1|]
2|a[1][/|a|]";

/// Whether a row's nesting, with so many openings and closings, is answered so.
fn is_answered(
    alloc: Global,
    row: [&str; 5],
    openings: u32,
    closings: u32,
    wanted: &str,
) -> Result<bool, AllocError> {
    let [_, open, core, close, _] = row;
    let nesting = Nesting {
        openings,
        open,
        core,
        close,
        closings,
    };
    is_made_of(alloc, Made::Reading, &nesting, wanted)
}

/// Whether the row's nesting is read with 256 levels at most, isn't with more, and isn't with more of which none is
/// closed.
fn has_256_levels(alloc: Global, row: &str) -> Result<bool, AllocError> {
    let row = columns(row);
    let most = if row[0] == "1" { 255 } else { 127 };
    let unclosed = if row[3].is_empty() {
        "TooDeep"
    } else {
        "Syntax"
    };
    let is_read = is_answered(alloc, row, most, most, "read")?;
    let is_refused = is_answered(alloc, row, most + 1, most + 1, "TooDeep")?;
    Ok(is_read & is_refused & is_answered(alloc, row, most + 2, 0, unclosed)?)
}

struct Levels;

impl Holds for Levels {
    fn holds(&self, alloc: Global, row: &'static str) -> Result<bool, Fail> {
        Ok(has_256_levels(alloc, row)?)
    }
}

#[test]
fn expressions_have_256_levels_at_most(rt: HostRuntime) -> Result<(), Fail> {
    expect_rows(rt.alloc(), &Levels, NESTINGS)
}

const DEEP: &str = "\
300|(|1|)|299 → Syntax
300|(|1|)|301 → Syntax
300|(|1|)|300 → TooDeep
32767|(|1|)|32767 → TooDeep
65535|(|1|)|0 → Syntax
0|(|1|)|65535 → Syntax
65536|(|||0 → Syntax";

#[test]
fn deep_texts_are_read_to_their_end(rt: HostRuntime) -> Result<(), Fail> {
    expect_nestings(rt.alloc(), Made::Reading, DEEP)
}

const LONG: &str = "\
1|1|| |65535 → read
1|1|| |65536 → TooLong
1|1||+1|29999 → read
1|1||=1|2 → Syntax
1|a||/a|32767 → read
1|a||[1]|21845 → read
1|||-|65536 → Syntax
1|1||,1|32767 → read
1|1||,|2 → Syntax
65535|-|1||0 → read";

#[test]
fn long_texts_are_read(rt: HostRuntime) -> Result<(), Fail> {
    expect_nestings(rt.alloc(), Made::Reading, LONG)
}

const PATTERNS: &str = "\
300|(|1|)|300 → Syntax
255|a[|1|]|255 → read
256|a[|1|]|256 → TooDeep
200|a[(|1|)]|200 → TooDeep
127|a/b[|1|]|127 → read
128|a/b[|1|]|128 → TooDeep
300|f(|1|)|300 → Syntax";

#[test]
fn deep_texts_are_patterns_or_not(rt: HostRuntime) -> Result<(), Fail> {
    expect_nestings(rt.alloc(), Made::PatternReading, PATTERNS)
}
