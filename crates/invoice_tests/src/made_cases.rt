use bind_rows::{Namespace, declared_by, prefix_of, uri_of};
use bind_table::{Binding, well_formed};
use cii_binding::cii;
use std::alloc::AllocError;
use std::test::Fail;
use test_rows::expect;
use ubl_binding::{credit_note, invoice};

/// Whether a table has so many rows and elements, and is well formed.
fn is_made(table: Binding, rows: usize, elements: usize) -> bool {
    let counts = [table.rows().len(), table.lines().len()];
    let is_right = well_formed(&table) == Ok(());
    drop(table);
    is_right && counts == [rows, elements]
}

#[test]
fn the_invoice_is_made(rt: HostRuntime) -> Result<(), Fail> {
    expect(is_made(invoice(rt.alloc())?, 198, 273), "invoice")
}

#[test]
fn the_credit_note_is_made(rt: HostRuntime) -> Result<(), Fail> {
    expect(is_made(credit_note(rt.alloc())?, 199, 274), "credit note")
}

#[test]
fn cii_is_made(rt: HostRuntime) -> Result<(), Fail> {
    expect(is_made(cii(rt.alloc())?, 212, 277), "CII")
}

fn push_namespace(line: &mut String, namespace: Namespace) -> Result<(), AllocError> {
    let (prefix, uri) = (prefix_of(namespace), uri_of(namespace));
    write!(line, "{prefix}={uri} ")
}

const DECLARED: &str = concat!(
    "rsm=urn:un:unece:uncefact:data:standard:CrossIndustryInvoice:100 ",
    "ram=urn:un:unece:uncefact:data:standard:ReusableAggregateBusinessInformationEntity:100 ",
    "udt=urn:un:unece:uncefact:data:standard:UnqualifiedDataType:100 ",
    "qdt=urn:un:unece:uncefact:data:standard:QualifiedDataType:100 "
);

#[test]
fn namespaces_are_declared_in_order(rt: HostRuntime) -> Result<(), Fail> {
    let mut line = String::new(rt.alloc());
    for namespace in declared_by(Namespace::CiiInvoice) {
        push_namespace(&mut line, *namespace)?;
    }
    expect(line.as_str() == DECLARED, "declared")
}
