ghost use Rattle.std.specs.Prelude.{◌≡◌, ℕ, ◌+◌, ◌<◌, ◌^◌, [], length, OnOk};

use crate::rows::{element, put};
use bind_rows::{Namespace, Step};
use bind_table::{Binding, TableFault, TableKind, well_formed};
use std::alloc::{AllocError, Global};
use std::test::Fail;
use term_table::Group;
use test_rows::expect;

/// Adds a row right below the root of a UBL invoice.
fn below_root(
    alloc: Global,
    table: &mut Binding,
    local: &str,
    number: u32,
    term: u16,
    outer: Option<Group>,
) -> Result<(), AllocError>
    requires few { length table.old < 1000 }
    requires number { number < 2 ^ 31 }
    ensures { OnOk result (length table.new ≡ length table.old + 1) }
{
    let root: Step = element(alloc, Namespace::UblInvoice, "Invoice", 1, None)?;
    let leaf: Step = element(alloc, Namespace::UblBasic, local, number, None)?;
    put(alloc, table, root, leaf, term, outer)
}

fn answer(kind: TableKind, row: u32) -> Result<(), TableFault> {
    Err(TableFault { kind, row })
}

/// How many lines and rows a table has, and what is wrong with it.
fn has(table: &Binding, lines: usize, rows: usize, want: Result<(), TableFault>) -> bool {
    table.lines().len() == lines && table.rows().len() == rows && well_formed(table) == want
}

fn share_and_repeat(alloc: Global, table: &mut Binding) -> Result<bool, AllocError>
    requires { table.old ≡ [] }
{
    let empty = well_formed(table) == Ok(());
    below_root(alloc, table, "ID", 2, 1, None)?;
    below_root(alloc, table, "InvoiceTypeCode", 3, 3, None)?;
    let parts = table.part(1).is_some() && table.part(2).is_none();
    let shared = has(table, 3, 2, Ok(()));
    below_root(alloc, table, "InvoiceTypeCode", 4, 5, None)?;
    let repeated = has(table, 4, 3, answer(TableKind::Ambiguous, 2));
    Ok(empty & parts & shared & repeated)
}

// Two rows share the line of the root, and one more of a name that stands makes the first of that name ambiguous.
#[test]
fn rows_share_lines_and_repeat(rt: HostRuntime) -> Result<(), Fail> {
    let mut table = Binding::new(rt.alloc());
    let held = share_and_repeat(rt.alloc(), &mut table);
    drop(table);
    expect(held?, "lines and rows")
}

fn tell_unknown(alloc: Global, table: &mut Binding) -> Result<bool, AllocError>
    requires { table.old ≡ [] }
{
    below_root(alloc, table, "ID", 2, 1, None)?;
    below_root(alloc, table, "Other", 3, 4, None)?;
    below_root(alloc, table, "Third", 4, 4, None)?;
    Ok(well_formed(table) == answer(TableKind::UnknownTerm, 2))
}

// BT-4 isn't a term of the semantic model. A later fault isn't told.
#[test]
fn unknown_terms_are_told(rt: HostRuntime) -> Result<(), Fail> {
    let mut table = Binding::new(rt.alloc());
    let told = tell_unknown(rt.alloc(), &mut table);
    drop(table);
    expect(told?, "unknown term")
}

fn tell_added(alloc: Global, table: &mut Binding) -> Result<bool, AllocError>
    requires { table.old ≡ [] }
{
    below_root(alloc, table, "ID", 2, 1, None)?;
    below_root(alloc, table, "Other", 3, 1001, None)?;
    Ok(well_formed(table) == answer(TableKind::UnknownTerm, 2))
}

// EXT-1 has a place in the invoice, and no table has it yet.
#[test]
fn added_terms_are_unknown(rt: HostRuntime) -> Result<(), Fail> {
    let mut table = Binding::new(rt.alloc());
    let told = tell_added(rt.alloc(), &mut table);
    drop(table);
    expect(told?, "added term")
}

fn line_below_root(alloc: Global, table: &mut Binding) -> Result<bool, AllocError>
    requires { table.old ≡ [] }
{
    below_root(alloc, table, "LineID", 2, 126, Some(Group::InvoiceLine))?;
    Ok(well_formed(table) == answer(TableKind::OutsideContext, 1))
}

fn line_in_its_group(alloc: Global, table: &mut Binding) -> Result<bool, AllocError>
    requires { table.old ≡ [] }
{
    let group = Some(Group::InvoiceLine);
    let root = element(alloc, Namespace::UblInvoice, "Invoice", 1, None)?;
    let line = element(alloc, Namespace::UblAggregate, "InvoiceLine", 2, group)?;
    put(alloc, table, root, line, 126, group)?;
    Ok(well_formed(table) == Ok(()))
}

// BT-126 stands in an invoice line, which no element of the path carries.
#[test]
fn contexts_have_to_be_carried(rt: HostRuntime) -> Result<(), Fail> {
    let mut table = Binding::new(rt.alloc());
    let outside = line_below_root(rt.alloc(), &mut table);
    drop(table);
    let mut carried = Binding::new(rt.alloc());
    let inside = line_in_its_group(rt.alloc(), &mut carried);
    drop(carried);
    expect(outside?, "outside")?;
    expect(inside?, "inside")
}
