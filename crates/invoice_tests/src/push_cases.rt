ghost use Rattle.inv_terms.specs.Listing.{Fits};

use crate::building::{context_of, entry_of, push_text};
use crate::texts::{halves, numbers};
use inv_terms::{Entry, Invoice, PushFault};
use std::alloc::{AllocError, Global};
use std::test::Fail;
use term_table::{Context, Group, Slot, term_row};
use test_rows::{Holds, expect, expect_rows};

/// Pushes to one invoice: the row of the term, a row whose group gives the context, the numbers of the outer and the
/// inner occurrence, and behind `>` what `push` answers.
const PUSHES: &str = "\
1 1 0 0>ok
0 0 0 0>order
1 1 0 0>order
0 20 1 0>context
20 20 2 0>context
20 20 0 0>context
21 20 1 0>ok
20 20 1 0>order
21 20 1 0>order
21 20 3 0>context
21 20 2 0>ok
20 20 1 0>order
22 22 0 0>ok
20 20 3 0>order
35 35 1 0>ok
35 35 2 0>ok
36 36 1 0>ok
37 36 1 0>ok
37 35 3 0>context
141 141 2 0>context
141 141 1 0>ok
152 152 1 2>context
152 152 1 1>ok
152 152 1 2>ok
152 152 1 1>order
156 152 1 2>ok
157 157 1 1>ok
153 153 1 2>order
152 152 2 1>ok
141 141 2 0>order
162 162 2 0>ok
179 179 2 1>ok
179 179 3 1>ok
179 179 5 1>context
179 179 3 3>context
179 179 3 2>ok
0 0 0 0>order";

fn expect_push(alloc: Global, invoice: &mut Invoice, row: &'static str) -> Result<(), Fail> {
    let (entry, want) = halves(row, '>');
    let [k, group, outer, inner, _] = numbers(entry);
    let group = term_row(group as usize).ok_or(row)?.group;
    let context = context_of(group, outer, inner);
    let text = if k == 1 { "2024-05-01" } else { "1" };
    let answer = push_text(alloc, invoice, k as usize, context, text)?;
    expect(answer == want, row)
}

fn expect_pushes(alloc: Global, invoice: &mut Invoice) -> Result<(), Fail> {
    for row in PUSHES.lines() {
        expect_push(alloc, invoice, row)?;
    }
    Ok(())
}

#[test]
fn entries_come_in_order(rt: HostRuntime) -> Result<(), Fail> {
    let mut invoice = Invoice::new(rt.alloc())?;
    let held = expect_pushes(rt.alloc(), &mut invoice);
    drop(invoice);
    held
}

/// Rows in contexts that they don't have: the row, and a row whose group is that of a slot with its number, for the
/// outer and the inner slot; 999 is none.
const CONTEXTS: &str = "\
21 20 0 999 0
21 999 0 20 1
21 141 1 20 1
152 141 1 152 0
152 141 0 152 1
152 152 1 999 0
152 152 1 141 1";

fn slot(k: u32, index: u32) -> Option<Slot> {
    match term_row(k as usize) {
        Some(row) => Some(Slot {
            group: row.group,
            index,
        }),
        None => None,
    }
}

fn refuses(
    alloc: Global,
    invoice: &mut Invoice,
    k: usize,
    context: Context,
) -> Result<bool, AllocError> {
    let answer = push_text(alloc, invoice, k, context, "1")?;
    Ok(answer == "context" && invoice.entry(0).is_none())
}

struct Contexts;

impl Holds for Contexts {
    fn holds(&self, alloc: Global, row: &'static str) -> Result<bool, Fail> {
        let [k, outer, first, inner, second] = numbers(row);
        let outer = slot(outer, first);
        let inner = slot(inner, second);
        let mut invoice = Invoice::new(alloc)?;
        let refused = refuses(alloc, &mut invoice, k as usize, Context { outer, inner });
        drop(invoice);
        Ok(refused?)
    }
}

#[test]
fn occurrences_count_from_1_in_their_slots(rt: HostRuntime) -> Result<(), Fail> {
    expect_rows(rt.alloc(), &Contexts, CONTEXTS)
}

fn entry_in(fault: PushFault) -> Entry {
    match fault {
        PushFault::OutOfOrder(back) => back,
        PushFault::BadContext(back) => back,
        PushFault::Memory(back) => back,
    }
}

/// Whether an entry is handed back because it comes too late.
fn hands_back(invoice: &mut Invoice, e: Entry) -> bool
    requires { Fits e.term e.value }
{
    let number = e.term.number;
    match invoice.push(e) {
        Ok(()) => false,
        Err(fault) => {
            let late = matches!(fault, PushFault::OutOfOrder(_));
            let back = entry_in(fault);
            let same = back.term.number == number;
            drop(back);
            late & same
        }
    }
}

fn hands_first_back(alloc: Global, invoice: &mut Invoice) -> Result<bool, AllocError> {
    let root = context_of(Group::Root, 0, 0);
    let second = push_text(alloc, invoice, 1, root, "2024-05-01")?;
    match entry_of(alloc, 0, root, " a ")? {
        Some(e) => Ok(hands_back(invoice, e) && second == "ok"),
        None => Ok(false),
    }
}

#[test]
fn a_refused_entry_is_handed_back(rt: HostRuntime) -> Result<(), Fail> {
    let mut invoice = Invoice::new(rt.alloc())?;
    let back = hands_first_back(rt.alloc(), &mut invoice);
    let is_one = invoice.entry(0).is_some() && invoice.entry(1).is_none();
    drop(invoice);
    expect(back? & is_one, "handed back")
}
