//! The generated invoice of four lines: amounts that were worked out by hand.

use inv_terms::Invoice;
use std::test::Fail;
use term_table::{Context, Group, ROOT, Slot, Term};
use test_rows::expect;
use trial_invoice::trial_invoice;

/// Whether a term is written so in a context.
fn is_written(invoice: &Invoice, context: Context, number: u16, expected: &str) -> bool {
    let mut buf = [0; 40];
    match invoice.value(Term { number, part: 0 }, context) {
        Some(value) => value.text(&mut buf) == expected,
        None => false,
    }
}

/// Whether the net amount of a line is written so.
fn is_net(invoice: &Invoice, index: u32, expected: &str) -> bool {
    let line = Context {
        outer: Some(Slot {
            group: Group::InvoiceLine,
            index,
        }),
        inner: None,
    };
    is_written(invoice, line, 131, expected)
}

fn has_amounts(invoice: &Invoice) -> bool {
    let lines = [
        is_net(invoice, 1, "76.00"),
        is_net(invoice, 2, "225.00"),
        is_net(invoice, 3, "448.00"),
        is_net(invoice, 4, "745.00"),
    ];
    let totals = [
        is_written(invoice, ROOT, 106, "1494.00"),
        is_written(invoice, ROOT, 110, "298.80"),
        is_written(invoice, ROOT, 112, "1792.80"),
        is_written(invoice, ROOT, 115, "1792.80"),
    ];
    lines == [true; 4] && totals == [true; 4]
}

#[test]
fn four_lines_have_their_amounts(rt: HostRuntime) -> Result<(), Fail> {
    let invoice = trial_invoice(rt.alloc(), 4)?;
    let has_its_own = has_amounts(&invoice) && invoice.entries().len() == 50;
    drop(invoice);
    expect(has_its_own, "amounts, entries")
}
