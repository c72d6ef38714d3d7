ghost use Rattle.term_table.specs.Runs.{IsNested};

use crate::building::{context_of, full_without};
use code_lists::CodeLists;
use inv_terms::{
    Counts, Entry, Invoice, Name, Presence, TermFault, all_missing, first_missing, is_unlisted,
};
use std::alloc::Global;
use std::test::Fail;
use term_table::{Context, DataType, Group, ROOT, Seat, Slot, Term, data_type_of};
use test_rows::expect;

fn is_found(full: &Invoice, lists: &CodeLists, e: &Entry) -> bool {
    let found = match full.value(e.term, e.context) {
        Some(value) => value.is_same(&e.value),
        None => false,
    };
    found && !is_unlisted(lists, e)
}

fn are_found(full: &Invoice, lists: &CodeLists) -> bool {
    let mut found = true;
    for e in full.entries() {
        found &= is_found(full, lists, e);
    }
    found
}

/// Whether there is no value of a term in a group that isn't its own, nor of a number that is no term's.
fn has_no_others(full: &Invoice) -> bool {
    let currency = Term { number: 5, part: 0 };
    let line = context_of(Group::InvoiceLine, 1, 0);
    full.value(currency, line).is_none() && full.value(Term { number: 4, part: 0 }, ROOT).is_none()
}

fn are_looked_up(alloc: Global, full: &Invoice) -> Result<bool, Fail> {
    let lists = CodeLists::built_in(alloc)?;
    let found = are_found(full, &lists);
    drop(lists);
    Ok(found && has_no_others(full))
}

#[test]
fn values_are_looked_up(rt: HostRuntime) -> Result<(), Fail> {
    let full = full_without(rt.alloc(), 1000)?;
    let found = are_looked_up(rt.alloc(), &full);
    drop(full);
    expect(found?, "values")
}

/// The context of a line.
fn line_of(index: u32) -> Context
    ensures { IsNested result }
{
    Context {
        outer: Some(Slot {
            group: Group::InvoiceLine,
            index,
        }),
        inner: None,
    }
}

/// The context of a charge of the second line.
fn charge_of(index: u32) -> Context
    ensures { IsNested result }
{
    Context {
        outer: Some(Slot {
            group: Group::InvoiceLine,
            index: 2,
        }),
        inner: Some(Slot {
            group: Group::LineCharge,
            index,
        }),
    }
}

fn lengths_of(full: &Invoice) -> [usize; 4] {
    [
        full.run(ROOT).len(),
        full.run(line_of(2)).len(),
        full.run(line_of(3)).len(),
        full.run(charge_of(1)).len(),
    ]
}

#[test]
fn entries_of_a_context_are_a_run(rt: HostRuntime) -> Result<(), Fail> {
    let full = full_without(rt.alloc(), 1000)?;
    let lengths = lengths_of(&full);
    drop(full);
    expect(lengths == [287, 55, 0, 5], "lengths")
}

#[test]
fn an_empty_invoice_is_made_of_no_entries(rt: HostRuntime) -> Result<(), Fail> {
    let empty = Invoice::from_entries(Vec::new(rt.alloc()));
    let is_empty = empty.entry(0).is_none();
    drop(empty);
    expect(is_empty, "empty")
}

fn seat(number: u16, index: u32) -> Seat {
    Seat {
        term: Term { number, part: 0 },
        context: context_of(Group::InvoiceNote, index, 0),
    }
}

#[test]
fn lacks_are_found_over_seats() -> Result<(), Fail> {
    let seats = [seat(21, 1), seat(21, 2), seat(22, 2)];
    let first = context_of(Group::InvoiceNote, 1, 0);
    let second = context_of(Group::InvoiceNote, 2, 0);
    let wanted = TermFault::Missing(Name::Term(seats[2].term));
    match first_missing(&seats[..1], first) {
        Some(lack) => expect(lack.fault == wanted, "first")?,
        None => expect(false, "none")?,
    }
    expect(first_missing(&seats[1..], second).is_none(), "second")
}

#[test]
fn terms_that_may_stand_are_noted() -> Result<(), Fail> {
    let seats = [seat(21, 1), seat(22, 2)];
    let presence = Presence::among(&seats);
    expect(presence.may_have(seats[1].term), "noted")?;
    expect(
        !presence.may_have(Term {
            number: 59,
            part: 0,
        }),
        "absent",
    )?;
    expect(
        Presence::of_any().may_have(Term {
            number: 59,
            part: 0,
        }),
        "any",
    )
}

#[test]
fn occurrences_are_counted_at_once(rt: HostRuntime) -> Result<(), Fail> {
    let full = full_without(rt.alloc(), 1000)?;
    let counts = Counts::among(full.entries());
    let mut same = true;
    'groups: for group in [Group::InvoiceNote, Group::InvoiceLine, Group::ItemAttribute] {
        let mut last = 0u32;
        'entries: for e in full.entries() {
            last = last.max(inv_terms::index_in(group, e.context.outer));
        }
        same &= counts.last(group) == last;
    }
    let lines = counts.last(Group::InvoiceLine);
    drop(full);
    expect(same && lines > 0, "counts")
}

#[test]
fn all_that_a_line_lacks_is_found(rt: HostRuntime) -> Result<(), Fail> {
    let line = context_of(Group::InvoiceLine, 1, 0);
    let alone = [Seat {
        term: Term {
            number: 126,
            part: 0,
        },
        context: line,
    }];
    let lacks = all_missing(rt.alloc(), &alone, line)?;
    let count = lacks.len();
    drop(lacks);
    expect(count == 6, "BT-129, BT-130, BT-131, BT-146, BT-151, BT-153")
}

#[test]
fn a_term_has_its_type() -> Result<(), Fail> {
    expect(
        data_type_of(Term { number: 2, part: 0 }) == Some(DataType::D),
        "BT-2",
    )?;
    expect(
        data_type_of(Term {
            number: 165,
            part: 0,
        }) == Some(DataType::T),
        "BT-165",
    )?;
    expect(data_type_of(Term { number: 4, part: 0 }).is_none(), "BT-4")?;
    expect(
        data_type_of(Term {
            number: 9999,
            part: 0,
        })
        .is_none(),
        "none",
    )
}
