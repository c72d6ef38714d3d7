//! Invoices for tests, built from lines of text.

ghost use Rattle.std.specs.Prelude.{IfOk, IfSome};
ghost use Rattle.inv_terms.specs.Listing.{Fits};

use crate::texts::{halves, numbers};
use code_lists::List;
use inv_terms::{Entry, Invoice, PushFault, Value};
use std::alloc::{AllocError, Global};
use std::test::Fail;
use term_table::{Context, DataType, Group, ROOT, Slot, TermRow, term_row, terms_have_one_type};
use test_rows::expect;

/// An entry of the k-th row, unless the text has no value.
pub fn entry_of(
    alloc: Global,
    k: usize,
    context: Context,
    text: &str,
) -> Result<Option<Entry>, AllocError>
    ensures { IfOk result (λ made. IfSome made (λ e. Fits e.term e.value)) }
{
    terms_have_one_type();
    match term_row(k) {
        Some(row) => match Value::read(alloc, row.data_type, text)? {
            Some(value) => Ok(Some(Entry {
                context,
                term: row.term,
                value,
            })),
            None => Ok(None),
        },
        None => Ok(None),
    }
}

fn slot(group: Option<Group>, index: u32) -> Option<Slot> {
    match group {
        Some(group) => Some(Slot { group, index }),
        None => None,
    }
}

/// The context of the terms of a group in the occurrences of these numbers, of which 0 is none.
pub fn context_of(group: Group, outer: u32, inner: u32) -> Context {
    if outer == 0 {
        return ROOT;
    }
    Context {
        outer: slot(group.outer(), outer),
        inner: if inner == 0 {
            None
        } else {
            slot(group.inner(), inner)
        },
    }
}

/// A text that has a value of the row's type, and is in its list.
pub fn sample(row: &TermRow) -> &'static str {
    match row.data_type {
        DataType::A | DataType::Q | DataType::P => "1.50",
        DataType::D => "2024-02-29",
        DataType::C => match row.list {
            Some(List::Point) => "35",
            _ => "S",
        },
        _ => "SGk=",
    }
}

fn word_of(fault: &PushFault) -> &'static str {
    match fault {
        PushFault::OutOfOrder(_) => "order",
        PushFault::BadContext(_) => "context",
        PushFault::Memory(_) => "memory",
    }
}

/// What `push` answers, in a word.
pub fn pushed(invoice: &mut Invoice, e: Entry) -> &'static str
    requires { Fits e.term e.value }
{
    match invoice.push(e) {
        Ok(()) => "ok",
        Err(fault) => {
            let word = word_of(&fault);
            drop(fault);
            word
        }
    }
}

/// What `push` answers to an entry of a row with this text.
pub fn push_text(
    alloc: Global,
    invoice: &mut Invoice,
    k: usize,
    context: Context,
    text: &str,
) -> Result<&'static str, AllocError> {
    match entry_of(alloc, k, context, text)? {
        Some(e) => Ok(pushed(invoice, e)),
        None => Ok("no value"),
    }
}

/// Which rows stand in a full invoice, from one to before another, in the occurrence of an outer and of an inner group.
const FULL: &str = "\
0 20 0 0
20 22 1 0
20 22 2 0
22 24 0 0
24 26 1 0
24 26 2 0
26 35 0 0
35 36 1 0
35 36 2 0
36 38 1 0
36 38 2 0
38 97 0 0
97 100 1 0
97 100 2 0
100 105 0 0
105 112 1 0
105 112 2 0
112 119 1 0
112 119 2 0
119 129 0 0
129 135 1 0
129 135 2 0
135 141 1 0
135 141 2 0
141 152 1 0
152 157 1 1
152 157 1 2
157 162 1 1
157 162 1 2
162 176 1 0
176 179 1 1
176 179 1 2
179 181 1 1
179 181 1 2
141 152 2 0
152 157 2 1
152 157 2 2
157 162 2 1
157 162 2 2
162 176 2 0
176 179 2 1
176 179 2 2
179 181 2 1
179 181 2 2";

/// Pushes a text to an invoice that has to take it.
fn add(
    alloc: Global,
    invoice: &mut Invoice,
    k: usize,
    context: Context,
    text: &str,
) -> Result<(), Fail> {
    let pushed = push_text(alloc, invoice, k, context, text)?;
    expect(pushed == "ok", "refused")
}

fn add_sample(
    alloc: Global,
    invoice: &mut Invoice,
    k: usize,
    outer: u32,
    inner: u32,
) -> Result<(), Fail> {
    let row = term_row(k).ok_or("row")?;
    let context = context_of(row.group, outer, inner);
    add(alloc, invoice, k, context, sample(&row))
}

/// Adds a sample of the rows that a line of the table names, but one.
fn add_samples(
    alloc: Global,
    invoice: &mut Invoice,
    line: &str,
    without: usize,
) -> Result<(), Fail> {
    let [from, to, outer, inner, _] = numbers(line);
    for k in from as usize..to as usize {
        if k != without {
            add_sample(alloc, invoice, k, outer, inner)?;
        }
    }
    Ok(())
}

fn fill(alloc: Global, invoice: &mut Invoice, without: usize) -> Result<(), Fail> {
    for line in FULL.lines() {
        add_samples(alloc, invoice, line, without)?;
    }
    Ok(())
}

/// The invoice, where it was filled.
fn filled(invoice: Invoice, answer: Result<(), Fail>) -> Result<Invoice, Fail> {
    match answer {
        Ok(()) => Ok(invoice),
        Err(fail) => {
            drop(invoice);
            Err(fail)
        }
    }
}

/// An invoice with every term, and every group that may be repeated twice, but without the row of that number.
pub fn full_without(alloc: Global, without: usize) -> Result<Invoice, Fail> {
    let mut invoice = Invoice::new(alloc)?;
    let answer = fill(alloc, &mut invoice, without);
    filled(invoice, answer)
}

fn add_line(alloc: Global, invoice: &mut Invoice, line: &str) -> Result<(), Fail> {
    let [k, outer, ..] = numbers(line);
    let (_, rest) = halves(line, ' ');
    let (_, text) = halves(rest, ' ');
    let row = term_row(k as usize).ok_or("row")?;
    let context = context_of(row.group, outer, 0);
    add(alloc, invoice, k as usize, context, text)
}

fn add_lines(alloc: Global, invoice: &mut Invoice, lines: &str) -> Result<(), Fail> {
    for line in lines.lines() {
        add_line(alloc, invoice, line)?;
    }
    Ok(())
}

/// The invoice of these lines, each with a row, the number of its occurrence and a text.
pub fn invoice_of(alloc: Global, lines: &str) -> Result<Invoice, Fail> {
    let mut invoice = Invoice::new(alloc)?;
    let answer = add_lines(alloc, &mut invoice, lines);
    filled(invoice, answer)
}
