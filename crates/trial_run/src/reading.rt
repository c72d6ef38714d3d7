//! Invoices written to memory, and read from it.
ghost use Rattle.std.specs.Prelude.{◌≡◌, IfOk, Some, option_map};
ghost use Rattle.node_arena.specs.Moves.{tree_nodes};
ghost use Rattle.bind_meaning.specs.Tables.{rows_of};
ghost use Rattle.bind_carrying.specs.Tables as targets;
ghost use Rattle.trial_run.specs.Memory as spec;

use bind_run::{BindKind, Syntax, Tables, read_document, tables_are_laid, target, write};
use bind_table::Binding;
use bind_write::measure;
use bumpalo::Bump;
use code_lists::CodeLists;
use held_rules::document_in;
use inv_base::MemSink;
use inv_terms::Invoice;
use node_arena::Doc;
use std::alloc::{AllocError, Global};

/// What it takes to read invoices and to write them.
pub(crate) struct Means {
    pub(crate) tables: Tables,
    pub(crate) lists: CodeLists,
}

impl Drop for Means {
    fn drop(self) {
        let Means { tables, lists } = self;
        drop(tables);
        drop(lists);
    }
}

impl Means {
    pub(crate) fn new(alloc: Global) -> Result<Means, AllocError>
        ensures { IfOk result (λ means. spec.AreBuiltIn means) }
    {
        let lists = CodeLists::built_in(alloc)?;
        Ok(Means {
            tables: Tables::built_in(),
            lists,
        })
    }
}

/// The bytes that an invoice is written as in a syntax, in exactly the room that they take.
pub(crate) fn written(
    alloc: Global,
    invoice: &Invoice,
    syntax: Syntax,
    means: &Means,
) -> Result<MemSink, AllocError>
    requires { spec.AreBuiltIn means.now }
    ensures { IfOk result (λ text. text.bytes ≡ spec.written syntax invoice.now) }
{
    let table = means.tables.table(alloc, target(invoice, syntax))?;
    let text = written_by(alloc, invoice, syntax, table.as_ref());
    drop(table);
    text
}

fn written_by(
    alloc: Global,
    invoice: &Invoice,
    syntax: Syntax,
    table: &Binding,
) -> Result<MemSink, AllocError>
    requires { table.now ≡ rows_of (targets.target invoice.now syntax) }
    ensures { IfOk result (λ text. text.bytes ≡ spec.written syntax invoice.now) }
{
    tables_are_laid();
    let sizes = measure(invoice, table);
    let mut text = MemSink::new(alloc, sizes.bytes as usize)?;
    match write(invoice, table, &mut text) {
        Ok(()) => Ok(text),
        Err(_) => Err(AllocError),
    }
}

/// The invoice that a document is; where there is none, one without entries.
pub(crate) fn terms_in(
    alloc: Global,
    doc: &Option<Doc<'_>>,
    means: &Means,
) -> Result<Invoice, AllocError>
    requires { spec.AreBuiltIn means.now }
    ensures { IfOk result (λ invoice. invoice ≡ spec.terms_in (option_map tree_nodes doc.now)) }
{
    match doc {
        Some(doc) => invoice_of(alloc, doc, means),
        None => Invoice::new(alloc),
    }
}

fn invoice_of(alloc: Global, doc: &Doc<'_>, means: &Means) -> Result<Invoice, AllocError>
    requires { spec.AreBuiltIn means.now }
    ensures { IfOk result (λ invoice. invoice ≡ spec.terms_in (Some (tree_nodes doc.now))) }
{
    match read_document(alloc, doc, &means.tables, &means.lists) {
        Ok(read) => Ok(read.invoice),
        Err(fault) => match fault.kind {
            BindKind::Memory => Err(AllocError),
            _ => Invoice::new(alloc),
        },
    }
}

/// The terms that bytes say.
pub(crate) fn terms_read(alloc: Global, bytes: &[u8], means: &Means) -> Result<Invoice, AllocError>
    requires { spec.AreBuiltIn means.now }
    ensures { IfOk result (λ invoice. invoice ≡ spec.terms_read bytes.now) }
{
    let bump = Bump::new(alloc);
    let doc = document_in(alloc, &bump, bytes)?;
    let terms = terms_in(alloc, &doc, means);
    drop(doc);
    terms
}
