//! Terms that a user's table adds: EXT-1 is 1001.

ghost use Rattle.std.specs.Prelude.{◌≡◌, IfOk, IfSome, true, false};
ghost use Rattle.term_table.specs.SemanticModel.{is_extension};
ghost use Rattle.term_table.specs.Rows.{is_base64};
ghost use Rattle.inv_terms.specs.Listing.{Fits};

use crate::building::{context_of, full_without, push_text, pushed};
use crate::json_cases::is_printed;
use crate::texts::{halves, numbers};
use code_lists::CodeLists;
use inv_base::MemSink;
use inv_listing::print_listing;
use inv_terms::{Entry, Invoice, Value, check};
use std::alloc::{AllocError, Global};
use std::test::Fail;
use term_table::{Context, DataType, Group, ROOT, Term, data_type_in, list_in, row_in};
use test_rows::expect;

fn row_of(number: u16, group: Group) -> Option<usize> {
    row_in(Term { number, part: 0 }, group.outer(), group.inner())
}

#[test]
fn added_terms_stand_in_lines_and_in_the_invoice() -> Result<(), Fail> {
    let rows = [
        row_of(1001, Group::InvoiceLine) == Some(181),
        row_of(1001, Group::Root) == Some(182),
        row_of(1099, Group::InvoiceLine) == Some(377),
        row_of(1099, Group::Root) == Some(378),
        row_of(1001, Group::InvoiceNote).is_none(),
        row_of(1001, Group::LineAllowance).is_none(),
        row_of(1000, Group::Root).is_none(),
        row_of(1100, Group::Root).is_none(),
    ];
    expect(rows == [true; 8], "rows")
}

#[test]
fn added_terms_have_no_type_and_no_list() -> Result<(), Fail> {
    let term = Term {
        number: 1001,
        part: 0,
    };
    let typed = data_type_in(term, None, None).is_some();
    let listed = list_in(term, None, None).is_some();
    expect(!typed & !listed, "EXT-1")
}

/// What `push` answers to an entry of such a term.
fn push_added(
    alloc: Global,
    invoice: &mut Invoice,
    term: Term,
    data_type: DataType,
    context: Context,
) -> Result<&'static str, AllocError>
    requires added { is_extension term ≡ true }
    requires typed { is_base64 data_type ≡ false }
{
    match Value::read(alloc, data_type, "X")? {
        Some(value) => Ok(pushed(
            invoice,
            Entry {
                context,
                term,
                value,
            },
        )),
        None => Ok("no value"),
    }
}

/// Pushes to one invoice: the row of a term, or the number of one that a table adds, from 1001 on; the number of the
/// line, of which 0 is none; and behind `>` what `push` answers.
const PUSHES: &str = "\
0 0>ok
141 1>ok
1002 1>ok
1001 1>order
1002 1>order
169 1>order
1099 1>ok
1001 3>context
141 2>ok
1001 2>ok
1001 0>ok
1001 0>order
1099 2>order
141 3>order
1010 0>ok
1002 0>order
1099 0>ok
1100 0>no term";

fn push_number(
    alloc: Global,
    invoice: &mut Invoice,
    number: u32,
    line: u32,
) -> Result<&'static str, AllocError> {
    if number < 1000 {
        let group = if line == 0 {
            Group::Root
        } else {
            Group::InvoiceLine
        };
        return push_text(
            alloc,
            invoice,
            number as usize,
            context_of(group, line, 0),
            "1",
        );
    }
    let term = Term {
        number: (number % 65536) as u16,
        part: 0,
    };
    if !term.is_extension() {
        return Ok("no term");
    }
    let context = context_of(Group::InvoiceLine, line, 0);
    push_added(alloc, invoice, term, DataType::T, context)
}

fn expect_push(alloc: Global, invoice: &mut Invoice, row: &'static str) -> Result<(), Fail> {
    let (entry, want) = halves(row, '>');
    let [number, line, ..] = numbers(entry);
    expect(push_number(alloc, invoice, number, line)? == want, row)
}

fn expect_pushes(alloc: Global, invoice: &mut Invoice) -> Result<(), Fail> {
    for row in PUSHES.lines() {
        expect_push(alloc, invoice, row)?;
    }
    Ok(())
}

/// How the invoice is listed behind these pushes.
const LISTED: &str = "\
BT-1 \"1\"
BG-25[1] BT-126 \"1\"
BG-25[1] EXT-2 \"X\"
BG-25[1] EXT-99 \"X\"
BG-25[2] BT-126 \"1\"
BG-25[2] EXT-1 \"X\"
EXT-1 \"X\"
EXT-10 \"X\"
EXT-99 \"X\"
passed over 0
";

/// The same as JSON text.
const JSON: &str = "\
{
  \"BT-1\": \"1\",
  \"BG-25\": [
    {
      \"BT-126\": \"1\",
      \"EXT-2\": \"X\",
      \"EXT-99\": \"X\"
    },
    {
      \"BT-126\": \"1\",
      \"EXT-1\": \"X\"
    }
  ],
  \"EXT-1\": \"X\",
  \"EXT-10\": \"X\",
  \"EXT-99\": \"X\"
}
";

fn is_listed(alloc: Global, invoice: &Invoice) -> Result<bool, AllocError> {
    let mut out = MemSink::new(alloc, 1000)?;
    let failed = print_listing(invoice, 0, &mut out);
    let written = out.bytes() == LISTED.as_bytes();
    drop(out);
    Ok(written & !failed)
}

fn expect_listed(alloc: Global, invoice: &mut Invoice) -> Result<(), Fail> {
    expect_pushes(alloc, invoice)?;
    expect(is_listed(alloc, invoice)?, "listing")?;
    expect(is_printed(alloc, invoice, 0, JSON)?, "JSON")
}

#[test]
fn added_terms_come_behind_their_lines_and_the_invoice(rt: HostRuntime) -> Result<(), Fail> {
    let mut invoice = Invoice::new(rt.alloc())?;
    let held = expect_listed(rt.alloc(), &mut invoice);
    drop(invoice);
    held
}

const FIRST: Term = Term {
    number: 1001,
    part: 0,
};

fn is_refused_in_note(alloc: Global, invoice: &mut Invoice) -> Result<bool, AllocError> {
    let note = context_of(Group::InvoiceNote, 1, 0);
    let answer = push_added(alloc, invoice, FIRST, DataType::T, note)?;
    Ok(answer == "context" && invoice.entry(0).is_none())
}

#[test]
fn no_other_group_has_added_terms(rt: HostRuntime) -> Result<(), Fail> {
    let mut invoice = Invoice::new(rt.alloc())?;
    let refused = is_refused_in_note(rt.alloc(), &mut invoice);
    drop(invoice);
    expect(refused?, "note")
}

/// Whether a code of an added term is in the invoice, and nothing is wrong with it.
fn is_checked(alloc: Global, invoice: &mut Invoice) -> Result<bool, Fail> {
    let answer = push_added(alloc, invoice, FIRST, DataType::C, ROOT)?;
    let found = invoice.value(FIRST, ROOT).is_some();
    let lists = CodeLists::built_in(alloc)?;
    let valid = check(invoice, &lists) == Ok(());
    drop(lists);
    Ok(found & valid && answer == "ok")
}

#[test]
fn codes_of_added_terms_are_in_no_list(rt: HostRuntime) -> Result<(), Fail> {
    let mut invoice = full_without(rt.alloc(), 1000)?;
    let checked = is_checked(rt.alloc(), &mut invoice);
    drop(invoice);
    expect(checked?, "code")
}
