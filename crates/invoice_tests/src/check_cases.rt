use crate::building::{full_without, invoice_of};
use code_lists::CodeLists;
use inv_terms::{Name, TermFault, check};
use std::alloc::Global;
use std::test::Fail;
use term_table::{Term, term_row};
use test_rows::expect;

/// For each row of the table of terms, whether a full invoice without it lacks it: 1 where it is mandatory in a group
/// that is still there.
const MANDATORY: &str =
    "1111000000000000000001011010000000101100000010001000000010000001000100001100000010000000000001100100100001001000100100010010010011110001000111000111000010000100001000010100001011011";

/// Whether this is what a full invoice without that row lacks.
fn lacks(
    alloc: Global,
    lists: &CodeLists,
    without: usize,
    want: Result<(), TermFault>,
) -> Result<bool, Fail> {
    let invoice = full_without(alloc, without)?;
    let holds = check(&invoice, lists) == want;
    drop(invoice);
    Ok(holds)
}

fn expect_missed(alloc: Global, lists: &CodeLists, k: usize, mark: u8) -> Result<(), Fail> {
    let term = term_row(k).ok_or("row")?.term;
    let want = match mark {
        b'1' => Err(TermFault::Missing(Name::Term(term))),
        _ => Ok(()),
    };
    let holds = lacks(alloc, lists, k, want)?;
    holds.then_some(()).ok_or(k)?;
    Ok(())
}

fn expect_all_missed(alloc: Global, lists: &CodeLists) -> Result<(), Fail> {
    for (k, mark) in MANDATORY.bytes().enumerate() {
        expect_missed(alloc, lists, k, mark)?;
    }
    expect(lacks(alloc, lists, 1000, Ok(()))?, "full")
}

#[test]
fn each_mandatory_term_is_missed(rt: HostRuntime) -> Result<(), Fail> {
    let lists = CodeLists::built_in(rt.alloc())?;
    let held = expect_all_missed(rt.alloc(), &lists);
    drop(lists);
    held
}

/// The smallest invoice: the row of each entry, the number of its occurrence, and its text.
const SMALLEST: &str = "\
0 0 A1
1 0 2024-05-01
2 0 380
3 0 EUR
23 0 urn:cen.eu:en16931:2017
26 0 Seller
44 0 DE
48 0 Buyer
63 0 FR
119 0 10.00
122 0 10.00
125 0 12.00
128 0 12.00
129 1 10.00
130 1 2.00
131 1 S
141 1 1
145 1 1
146 1 C62
147 1 10.00
162 1 10.00
167 1 S
169 1 Pen";

/// Whether `check` answers that of the invoice of these lines.
fn answers(
    alloc: Global,
    lists: &CodeLists,
    lines: &str,
    want: Result<(), TermFault>,
) -> Result<bool, Fail> {
    let invoice = invoice_of(alloc, lines)?;
    let holds = check(&invoice, lists) == want;
    drop(invoice);
    Ok(holds)
}

/// Whether `check` answers that of the smallest invoice under the lists of a file.
fn is_checked(alloc: Global, file: &[u8], want: Result<(), TermFault>) -> Result<bool, Fail> {
    match CodeLists::from_toml(alloc, file) {
        Ok(lists) => {
            let holds = answers(alloc, &lists, SMALLEST, want);
            drop(lists);
            holds
        }
        Err(_) => Ok(false),
    }
}

#[test]
fn codes_come_from_their_lists(rt: HostRuntime) -> Result<(), Fail> {
    let alloc = rt.alloc();
    let refused = Err(TermFault::CodeNotListed(Term { number: 5, part: 0 }));
    let two = b"[lists]\ncurrency = [\"USD\", \"EUR\"]\n";
    expect(is_checked(alloc, b"[lists]\n", Ok(()))?, "none")?;
    expect(
        is_checked(alloc, b"[lists]\ncurrency = [\"USD\"]\n", refused)?,
        "USD",
    )?;
    expect(is_checked(alloc, two, Ok(()))?, "USD, EUR")
}

/// An invoice that lacks a mandatory term beside an optional one, and has a code that is in no list behind it.
const LINES: &str = "\
0 0 A1
1 0 2024-05-01
2 0 380
3 0 EUR
20 1 AAI
131 1 X
";

fn is_lacking(alloc: Global, lines: &str, want: u16) -> Result<bool, Fail> {
    let lists = CodeLists::built_in(alloc)?;
    let term = Term {
        number: want,
        part: 0,
    };
    let want = Err(TermFault::Missing(Name::Term(term)));
    let holds = answers(alloc, &lists, lines, want);
    drop(lists);
    holds
}

#[test]
fn the_first_lack_is_told(rt: HostRuntime) -> Result<(), Fail> {
    let alloc = rt.alloc();
    expect(is_lacking(alloc, "", 1)?, "nothing")?;
    expect(is_lacking(alloc, "0 0 A1", 2)?, "0 0 A1")?;
    expect(is_lacking(alloc, "9 0 a\n131 1 X", 1)?, "9 0 a")?;
    expect(is_lacking(alloc, LINES, 22)?, LINES)
}
