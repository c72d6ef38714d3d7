//! Tables by which invoices can be written, and tables by which they can't, each for one reason.
ghost use Rattle.std.specs.Prelude.{◌≡◌, ◌+◌, ◌<◌, [], length, IfOk, OnOk};

use bind_rows::{
    Check, Content, ElementName, Form, Leaf, Many, Namespace, Repeats, Row, Step, Word, Written,
};
use bind_table::Binding;
use cii_binding::cii;
use inv_base::Txt;
use laid_tables::can_be_written;
use std::alloc::{AllocError, Global};
use std::test::Fail;
use term_table::Term;
use test_rows::expect;
use ubl_binding::{credit_note, invoice};

/// A row of two elements, the root and one below it, each with its number.
#[derive(Clone, Copy)]
struct Below {
    root: &'static str,
    root_number: u16,
    space: Namespace,
    local: &'static str,
    number: u16,
    attribute: Option<&'static str>,
    form: Form,
}

fn row_below(local: &'static str, number: u16) -> Below {
    Below {
        root: "Invoice",
        root_number: 1,
        space: Namespace::UblBasic,
        local,
        number,
        attribute: None,
        form: Form::Model,
    }
}

fn row_at(name: &'static str, form: Form) -> Below {
    Below {
        root: "Invoice",
        root_number: 1,
        space: Namespace::UblBasic,
        local: "ID",
        number: 2,
        attribute: Some(name),
        form,
    }
}

const ID: Below = Below {
    root: "Invoice",
    root_number: 1,
    space: Namespace::UblBasic,
    local: "ID",
    number: 2,
    attribute: None,
    form: Form::Model,
};

const NOTE: Below = Below {
    root: "Invoice",
    root_number: 1,
    space: Namespace::UblBasic,
    local: "Note",
    number: 3,
    attribute: None,
    form: Form::Model,
};

const SECOND_ROOT: Below = Below {
    root: "Other",
    root_number: 3,
    space: Namespace::UblBasic,
    local: "Name",
    number: 4,
    attribute: None,
    form: Form::Model,
};

const UNDECLARED: Below = Below {
    root: "Invoice",
    root_number: 1,
    space: Namespace::CiiAggregate,
    local: "ID",
    number: 2,
    attribute: None,
    form: Form::Model,
};

const CODED: Below = Below {
    root: "Invoice",
    root_number: 1,
    space: Namespace::UblBasic,
    local: "Note",
    number: 3,
    attribute: None,
    form: Form::CodedNote,
};

fn element(
    alloc: Global,
    namespace: Namespace,
    local: &str,
    number: u16,
) -> Result<Step, AllocError>
    ensures { IfOk result (λ step. step.number ≡ number) }
{
    Ok(Step {
        name: ElementName {
            namespace,
            local: Word::of(alloc, local)?,
        },
        number: u32::from(number),
        always: false,
        group: None,
        guards: Many::new(alloc),
    })
}

fn leaf_of(alloc: Global, attribute: Option<&str>) -> Result<Leaf, AllocError> {
    match attribute {
        None => Ok(Leaf::Element),
        Some(name) => Ok(Leaf::Attribute(Txt::of(alloc, name)?)),
    }
}

fn put(alloc: Global, table: &mut Binding, row: &Below) -> Result<(), AllocError>
    requires { length table.old < 1000 }
    ensures { OnOk result (length table.new ≡ length table.old + 1) }
{
    let mut path = Many::new(alloc);
    path.push(element(alloc, Namespace::UblInvoice, row.root, row.root_number)?)?;
    path.push(element(alloc, row.space, row.local, row.number)?)?;
    table.push(Row {
        path,
        leaf: leaf_of(alloc, row.attribute)?,
        outer: None,
        inner: None,
        content: Content::Term(Term { number: 1, part: 0 }),
        form: row.form,
        repeats: Repeats::Once,
        written: Written::Always,
        check: Check::Nothing,
    })
}

fn put_all(alloc: Global, table: &mut Binding, rows: &[Below]) -> Result<bool, AllocError>
    requires empty { table.old ≡ [] }
    requires few { length rows.now < 1000 }
{
    'rows: for row in rows {
        put(alloc, table, row)?;
    }
    can_be_written(alloc, table)
}

fn is_writable(alloc: Global, rows: &[Below]) -> Result<bool, AllocError>
    requires { length rows.now < 1000 }
{
    let mut table = Binding::new(alloc);
    let answer = put_all(alloc, &mut table, rows);
    drop(table);
    answer
}

#[test]
fn tables_are_written_by(rt: HostRuntime) -> Result<(), Fail> {
    let alloc = rt.alloc();
    expect(is_writable(alloc, &[ID])?, "one row")?;
    expect(is_writable(alloc, &[ID, NOTE])?, "two elements")?;
    expect(is_writable(alloc, &[NOTE, ID])?, "in any order")?;
    let scheme = row_at("schemeID", Form::Model);
    let unit = row_at("unitCode", Form::PlainDate);
    expect(
        is_writable(alloc, &[ID, scheme, unit])?,
        "element and attributes",
    )?;
    expect(is_writable(alloc, &[CODED])?, "coded note in an element")?;
    expect(
        is_writable(alloc, &[row_below("ä-1.b", 2)])?,
        "name beyond ASCII",
    )
}

#[test]
fn tables_have_one_root_and_distinct_elements(rt: HostRuntime) -> Result<(), Fail> {
    let alloc = rt.alloc();
    expect(!is_writable(alloc, &[])?, "no row")?;
    expect(!is_writable(alloc, &[ID, SECOND_ROOT])?, "two roots")?;
    expect(
        !is_writable(alloc, &[ID, row_below("Note", 2)])?,
        "one number",
    )?;
    expect(
        !is_writable(alloc, &[row_below("ID", 1)])?,
        "number of the root",
    )?;
    expect(!is_writable(alloc, &[ID, ID])?, "one place")?;
    let scheme = row_at("schemeID", Form::Model);
    expect(
        !is_writable(alloc, &[scheme, NOTE, scheme])?,
        "one attribute",
    )
}

#[test]
fn tables_have_names_that_can_be_written(rt: HostRuntime) -> Result<(), Fail> {
    let alloc = rt.alloc();
    expect(!is_writable(alloc, &[row_below("", 2)])?, "empty name")?;
    expect(!is_writable(alloc, &[row_below("1D", 2)])?, "digit first")?;
    expect(!is_writable(alloc, &[row_below("cbc:ID", 2)])?, "colon")?;
    expect(!is_writable(alloc, &[row_below("I D", 2)])?, "space")?;
    expect(!is_writable(alloc, &[UNDECLARED])?, "namespace")?;
    expect(
        !is_writable(alloc, &[row_at("xmlns", Form::Model)])?,
        "xmlns",
    )?;
    let currency = row_at("currencyID", Form::Model);
    expect(!is_writable(alloc, &[currency])?, "currencyID")?;
    expect(
        !is_writable(alloc, &[row_at("a:b", Form::Model)])?,
        "colon in an attribute",
    )?;
    let coded = row_at("schemeID", Form::CodedNote);
    expect(!is_writable(alloc, &[coded])?, "coded note in an attribute")
}

fn lets_write(alloc: Global, table: Binding) -> Result<bool, AllocError> {
    let answer = can_be_written(alloc, &table);
    drop(table);
    answer
}

#[test]
fn built_in_tables_are_written_by(rt: HostRuntime) -> Result<(), Fail> {
    let alloc = rt.alloc();
    expect(lets_write(alloc, invoice(alloc)?)?, "invoice")?;
    expect(lets_write(alloc, credit_note(alloc)?)?, "credit note")?;
    expect(lets_write(alloc, cii(alloc)?)?, "CII")
}
