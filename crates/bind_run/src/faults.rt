//! All faults of a document as an invoice.
ghost use Rattle.std.specs.Prelude.{◌≡◌, ◌≢◌, ◌<◌, All, IfOk, IfErr, Ok, length};
ghost use Rattle.node_arena.specs.Moves.{tree_nodes};
ghost use Rattle.bind_table.specs.WellFormed.{first_fault};
ghost use Rattle.bind_meaning.specs.Faults.{faults_in, passed_nodes};
ghost use Rattle.bind_meaning.specs.Losses.{misplaced_nodes, unread_nodes};
ghost use Rattle.bind_run.specs.Reading.{AreFormed, FindsFaults, IsWholeIfMemory, IsWithin, faults_by, rows_in};

use crate::gathering::gather_with_losses;
use crate::judging::faults;
use crate::reading::out_of_memory;
use crate::roots::binding_of;
use crate::tables::Tables;
use bind_meaning::{BindFault, DocumentType};
use bind_table::Binding;
use bind_walk::Losses;
use code_lists::CodeLists;
use inv_base::{Steps, Txt};
use node_arena::{Doc, NodeId};
use std::alloc::{AllocError, Global};
use std::marker::Brand;
use std::mem::replace;
use std::sync::ledger::{Blank, Ledger};

/// The faults of a document as an invoice, in their order, and the elements that its table passes over, in document order: those right
/// inside an element of the table whose names lead no further, each with all that it holds.
pub struct ReadingReport {
    /// The table by which it was read.
    pub document_type: DocumentType,
    pub faults: Vec<BindFault>,
    pub passed_over: Vec<NodeId>,
    /// What of the table's elements is unread, and which of them stand behind one that the table has later.
    pub losses: Losses,
}

impl Drop for ReadingReport {
    fn drop(self) {
        let ReadingReport {
            document_type: _,
            faults,
            passed_over,
            losses,
        } = self;
        drop(faults);
        drop(passed_over);
        drop(losses);
    }
}

/// All faults of a document as an invoice by the one of three tables that its root element selects, each at a node of the document.
/// Where no table is selected that is the one fault, and want of memory is told as a fault of the whole document.
pub fn faults_of_document(
    alloc: Global,
    doc: &Doc<'_>,
    tables: &Tables,
    lists: &CodeLists,
) -> Result<ReadingReport, BindFault>
    requires { AreFormed tables.now }
    ensures finds { FindsFaults (faults_by (rows_in tables.now) (tree_nodes doc.now) lists.now) result }
    ensures within { IfOk result (IsWithin (length doc.now.nodes)) }
    ensures fault_within { IfErr result (λ fault. fault.node < length doc.now.nodes) }
    ensures memory { IfErr result IsWholeIfMemory }
{
    doc.is_of_a_tree();
    match binding_of(doc) {
        Ok(document_type) => {
            match faults_of_table::<Brand>(
                alloc,
                doc,
                tables,
                document_type,
                lists,
                Blank::new(1),
            ) {
                Ok(found) => Ok(found),
                Err(_) => Err(out_of_memory(doc)),
            }
        }
        Err(fault) => Err(fault),
    }
}

/// The same by one of the tables, with steps that nobody asks for.
fn faults_of_table<L: Ledger>(
    alloc: Global,
    doc: &Doc<'_>,
    tables: &Tables,
    document_type: DocumentType,
    lists: &CodeLists,
    ledger: Blank,
) -> Result<ReadingReport, AllocError>
    requires tables { AreFormed tables.now }
    requires name { ledger.name ≡ L.name }
    requires parts { ledger.parts ≡ L.parts }
    requires some { 0 < ledger.parts }
    ensures document_type { IfOk result (λ found. found.document_type ≡ document_type) }
    ensures faults { IfOk result (λ found. found.faults.items ≡ faults_in (tree_nodes doc.now) (rows_in tables.now document_type) lists.now) }
    ensures passed_over { IfOk result (λ found. found.passed_over.items ≡ passed_nodes (tree_nodes doc.now) (rows_in tables.now document_type)) }
    ensures unread { IfOk result (λ found. found.losses.unread.items ≡ unread_nodes (tree_nodes doc.now) (rows_in tables.now document_type)) }
    ensures misplaced { IfOk result (λ found. found.losses.misplaced.items ≡ misplaced_nodes (tree_nodes doc.now) (rows_in tables.now document_type)) }
    ensures within { IfOk result (IsWithin (length doc.now.nodes)) }
{
    let table = tables.table(alloc, document_type)?;
    let mut steps = Steps::<L>::new(ledger);
    let answer = faults_by_table(alloc, doc, table.as_ref(), document_type, lists, &mut steps);
    drop(table);
    answer
}

fn faults_by_table<L: Ledger>(
    alloc: Global,
    doc: &Doc<'_>,
    table: &Binding,
    document_type: DocumentType,
    lists: &CodeLists,
    steps: &mut Steps<L>,
) -> Result<ReadingReport, AllocError>
    requires { first_fault table.now ≡ Ok tt }
    ensures document_type { IfOk result (λ found. found.document_type ≡ document_type) }
    ensures faults { IfOk result (λ found. found.faults.items ≡ faults_in (tree_nodes doc.now) table.now lists.now) }
    ensures passed_over { IfOk result (λ found. found.passed_over.items ≡ passed_nodes (tree_nodes doc.now) table.now) }
    ensures unread { IfOk result (λ found. found.losses.unread.items ≡ unread_nodes (tree_nodes doc.now) table.now) }
    ensures misplaced { IfOk result (λ found. found.losses.misplaced.items ≡ misplaced_nodes (tree_nodes doc.now) table.now) }
    ensures within { IfOk result (IsWithin (length doc.now.nodes)) }
{
    let (gathered, losses) = gather_with_losses(alloc, doc, table, steps)?;
    let mut gathered = gathered;
    let picks = replace(&mut gathered.numbered.picks, Vec::new(alloc));
    let currency = gathered.numbered.invoice_currency.as_ref().map(Txt::as_str);
    let judged = faults(
        alloc,
        doc,
        table,
        lists,
        currency,
        picks,
        gathered.others.indicators.as_slice(),
        steps,
    );
    let passed_over = replace(&mut gathered.others.passed_over, Vec::new(alloc));
    drop(gathered);
    match judged {
        Ok(faults) => Ok(ReadingReport {
            document_type,
            faults,
            passed_over,
            losses,
        }),
        Err(error) => {
            drop(passed_over);
            drop(losses);
            Err(error)
        }
    }
}
