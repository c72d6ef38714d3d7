ghost use Rattle.std.specs.Prelude.{◌≡◌, ◌≢◌, ◌<◌, Ok, length, IfOk, IfErr, IfSome};
ghost use Rattle.node_arena.specs.Moves.{tree_nodes};
ghost use Rattle.bind_table.specs.WellFormed.{first_fault};
ghost use Rattle.bind_meaning.specs.declared.fault.BindKind.TheVariants as kinds;
ghost use Rattle.bind_meaning.specs.Currencies.{currencies};
ghost use Rattle.bind_meaning.specs.Faults.{passed_nodes};
ghost use Rattle.bind_meaning.specs.Kept.{all_kept, all_kept_placed};
ghost use Rattle.bind_meaning.specs.Losses.{lost_nodes};
ghost use Rattle.bind_meaning.specs.Terms.{in_order, terms_of};
ghost use Rattle.bind_terms.specs.Reading.{indicator_picks, term_places};
ghost use Rattle.bind_run.specs.Reading.{AreFormed, Reads, ReadsWhole, IsWholeIfMemory, first_lost, first_of, invoice_by, rows_in, want_of_memory};

use crate::gathering::{Gathered, gather, gather_whole};
use crate::judging::judge;
use crate::roots::binding_of;
use crate::tables::Tables;
use bind_meaning::{BindFault, BindKind, DocumentType};
use bind_table::Binding;
use code_lists::CodeLists;
use inv_base::{Steps, Txt};
use inv_terms::{Invoice, Name};
use node_arena::{Doc, NodeId};
use std::alloc::Global;
use std::marker::Brand;
use std::mem::replace;
use std::sync::ledger::{Blank, Ledger};

/// An invoice that was read, and how many elements of its document its table passes over: those right inside an element of the table
/// whose names lead no further, each with all that it holds.
#[derive(Drop)]
pub struct ReadInvoice {
    pub invoice: Invoice,
    pub passed_over: u32,
}

/// An invoice that was read, and the first node of its document that isn't in it: an element that the table passes over, or an element or
/// attribute of the table that is unread.
#[derive(Drop)]
pub struct WholeRead {
    pub read: ReadInvoice,
    pub lost: Option<NodeId>,
}

/// The invoice that a document is by a table, or its first fault. It goes over the document and the lines of the table once. Want of
/// memory is told as a fault of the whole document.
pub fn read<L: Ledger>(
    alloc: Global,
    doc: &Doc<'_>,
    table: &Binding,
    lists: &CodeLists,
    steps: &mut Steps<L>,
) -> Result<ReadInvoice, BindFault>
    requires { first_fault table.now ≡ Ok tt }
    ensures reads { Reads (terms_of (tree_nodes doc.now) table.now lists.now) result }
    ensures memory { IfErr result IsWholeIfMemory }
{
    match gather(alloc, doc, table, steps) {
        Ok(gathered) => read_gathered(alloc, doc, table, lists, gathered, steps),
        Err(_) => Err(out_of_memory(doc)),
    }
}

/// The same by what the rows of the table pick.
fn read_gathered<L: Ledger>(
    alloc: Global,
    doc: &Doc<'_>,
    table: &Binding,
    lists: &CodeLists,
    gathered: Gathered,
    steps: &mut Steps<L>,
) -> Result<ReadInvoice, BindFault>
    requires formed { first_fault table.now ≡ Ok tt }
    requires picks { gathered.numbered.picks.items ≡ all_kept_placed (term_places (tree_nodes doc.now) table.now) }
    requires currency { gathered.numbered.invoice_currency ≡ (currencies (tree_nodes doc.now) table.now).invoice }
    requires indicators { gathered.others.indicators.items
        ≡ all_kept (in_order (tree_nodes doc.now) (indicator_picks (tree_nodes doc.now) table.now)) }
    requires passed_over { gathered.others.passed_over.items ≡ passed_nodes (tree_nodes doc.now) table.now }
    ensures reads { Reads (terms_of (tree_nodes doc.now) table.now lists.now) result }
    ensures memory { IfErr result IsWholeIfMemory }
{
    doc.is_of_a_tree();
    let mut gathered = gathered;
    let picks = replace(&mut gathered.numbered.picks, Vec::new(alloc));
    let currency = gathered.numbered.invoice_currency.as_ref().map(Txt::as_str);
    let judged = judge(
        alloc,
        doc,
        table,
        lists,
        currency,
        picks,
        gathered.others.indicators.as_slice(),
        steps,
    );
    let passed_over = gathered.others.passed_over.as_slice().len() as u32;
    drop(gathered);
    match judged {
        Ok(invoice) => Ok(ReadInvoice {
            invoice,
            passed_over,
        }),
        Err(fault) => Err(fault),
    }
}

/// The same as `read`, with the first of the document that is lost.
fn read_whole<L: Ledger>(
    alloc: Global,
    doc: &Doc<'_>,
    table: &Binding,
    lists: &CodeLists,
    steps: &mut Steps<L>,
) -> Result<WholeRead, BindFault>
    requires { first_fault table.now ≡ Ok tt }
    ensures reads { ReadsWhole (terms_of (tree_nodes doc.now) table.now lists.now) (first_of (lost_nodes (tree_nodes doc.now) table.now)) result }
    ensures lost_within { IfOk result (λ found. IfSome found.lost (λ n. n < length doc.now.nodes)) }
    ensures memory { IfErr result IsWholeIfMemory }
{
    let (gathered, lost) = match gather_whole(alloc, doc, table, steps) {
        Ok(found) => found,
        Err(_) => return Err(out_of_memory(doc)),
    };
    match read_gathered(alloc, doc, table, lists, gathered, steps) {
        Ok(read) => Ok(WholeRead { read, lost }),
        Err(fault) => Err(fault),
    }
}

/// Want of memory, as a fault of the whole document.
pub(crate) fn out_of_memory(doc: &Doc<'_>) -> BindFault
    ensures kind { result.kind ≡ kinds.Memory }
    ensures whole { result ≡ want_of_memory }
{
    BindFault {
        kind: BindKind::Memory,
        name: Name::Nothing,
        node: doc.document(),
    }
}

/// The invoice that a document is by the one of three tables that its root element selects, or its first fault, which stands at a
/// node of the document.
pub fn read_document(
    alloc: Global,
    doc: &Doc<'_>,
    tables: &Tables,
    lists: &CodeLists,
) -> Result<ReadInvoice, BindFault>
    requires { AreFormed tables.now }
    ensures reads { Reads (invoice_by (rows_in tables.now) (tree_nodes doc.now) lists.now) result }
    ensures within { IfErr result (λ fault. fault.kind ≢ kinds.Memory → fault.node < length doc.now.nodes) }
    ensures memory { IfErr result IsWholeIfMemory }
{
    doc.is_of_a_tree();
    match binding_of(doc) {
        Ok(document_type) => read_counted::<Brand>(
            alloc,
            doc,
            tables,
            document_type,
            lists,
            Blank::new(1),
        ),
        Err(fault) => Err(fault),
    }
}

/// The same by one of the tables, with steps that nobody asks for.
fn read_counted<L: Ledger>(
    alloc: Global,
    doc: &Doc<'_>,
    tables: &Tables,
    document_type: DocumentType,
    lists: &CodeLists,
    ledger: Blank,
) -> Result<ReadInvoice, BindFault>
    requires tables { AreFormed tables.now }
    requires name { ledger.name ≡ L.name }
    requires parts { ledger.parts ≡ L.parts }
    requires some { 0 < ledger.parts }
    ensures reads { Reads (terms_of (tree_nodes doc.now) (rows_in tables.now document_type) lists.now) result }
    ensures memory { IfErr result IsWholeIfMemory }
{
    let table = match tables.table(alloc, document_type) {
        Ok(table) => table,
        Err(_) => return Err(out_of_memory(doc)),
    };
    let mut steps = Steps::<L>::new(ledger);
    let answer = read(alloc, doc, table.as_ref(), lists, &mut steps);
    drop(table);
    answer
}

/// The same as `read_document`, with the first of the document that is lost, which is a node of it.
pub fn read_document_whole(
    alloc: Global,
    doc: &Doc<'_>,
    tables: &Tables,
    lists: &CodeLists,
) -> Result<WholeRead, BindFault>
    requires { AreFormed tables.now }
    ensures reads { ReadsWhole (invoice_by (rows_in tables.now) (tree_nodes doc.now) lists.now) (first_lost (rows_in tables.now) (tree_nodes doc.now)) result }
    ensures lost_within { IfOk result (λ found. IfSome found.lost (λ n. n < length doc.now.nodes)) }
    ensures within { IfErr result (λ fault. fault.kind ≢ kinds.Memory → fault.node < length doc.now.nodes) }
    ensures memory { IfErr result IsWholeIfMemory }
{
    doc.is_of_a_tree();
    match binding_of(doc) {
        Ok(document_type) => read_whole_counted::<Brand>(
            alloc,
            doc,
            tables,
            document_type,
            lists,
            Blank::new(1),
        ),
        Err(fault) => Err(fault),
    }
}

/// The same by one of the tables, with steps that nobody asks for.
fn read_whole_counted<L: Ledger>(
    alloc: Global,
    doc: &Doc<'_>,
    tables: &Tables,
    document_type: DocumentType,
    lists: &CodeLists,
    ledger: Blank,
) -> Result<WholeRead, BindFault>
    requires tables { AreFormed tables.now }
    requires name { ledger.name ≡ L.name }
    requires parts { ledger.parts ≡ L.parts }
    requires some { 0 < ledger.parts }
    ensures reads { ReadsWhole (terms_of (tree_nodes doc.now) (rows_in tables.now document_type) lists.now)
        (first_of (lost_nodes (tree_nodes doc.now) (rows_in tables.now document_type))) result }
    ensures lost_within { IfOk result (λ found. IfSome found.lost (λ n. n < length doc.now.nodes)) }
    ensures memory { IfErr result IsWholeIfMemory }
{
    let table = match tables.table(alloc, document_type) {
        Ok(table) => table,
        Err(_) => return Err(out_of_memory(doc)),
    };
    let mut steps = Steps::<L>::new(ledger);
    let answer = read_whole(alloc, doc, table.as_ref(), lists, &mut steps);
    drop(table);
    answer
}
