//! A rule file from its document to its rules.
ghost use Rattle.std.specs.Prelude.{◌≡◌, ◌<◌, List, length, IfErr, Ok};
ghost use Rattle.inv_base.specs.Tree.{Node};
ghost use Rattle.node_arena.specs.Moves.{tree_nodes};
ghost use Rattle.schematron_entries.specs.Order.{AreInOrder};
ghost use Rattle.schematron_entries.specs.Seen.{seen_entries};
ghost use Rattle.schematron_meaning.specs.Entries as meaning;
ghost use Rattle.schematron_meaning.specs.Expansion.{file_of};
ghost use Rattle.schematron_meaning.specs.Faults as faults;
ghost use Rattle.schematron_meaning.specs.Rules.{rules_of, compiled};
ghost use Rattle.schematron_compile.specs.Answers.{Compiles, ComesTo, IsOfANode, told, is_memory, want_of_memory};

use crate::building::build;
use inv_base::{Place, Steps};
use node_arena::Doc;
use schematron_entries::{Entry, nodes_are_in_order, read};
use schematron_expansion::RuleFile;
use schematron_faults::{faults_tell_nodes, first_fault};
use schematron_meaning::{Attribute, Fault, RuleKind};
use schematron_rules::{Compiled, Rules};
use std::alloc::Global;
use std::marker::Brand;
use std::sync::ledger::{Blank, Ledger};

/// Why there are no rules: the first fault of the file, or want of memory, which has the place 0 and no attribute.
#[derive(Clone, Copy)]
pub struct RuleFault {
    pub kind: RuleKind,
    /// Where the element begins that it tells.
    pub place: Place,
    pub attribute: Option<Attribute>,
}

impl RuleFault {
    /// Whether memory ran out, which is no fault of the file.
    pub fn is_memory(&self) -> bool
        ensures { result ≡ is_memory self.now.kind }
    {
        matches!(self.kind, RuleKind::Memory)
    }
}

/// Why a file comes to nothing.
#[derive(Clone, Copy)]
pub(crate) enum Refusal {
    /// The first fault of the file. Its node is one of the document's.
    Refused(Fault),
    /// Memory ran out.
    Memory,
}

/// What the rule file of a document says (ISO/IEC 19757-3, in the subset of docs/RULES.md), or its first fault.
///
/// What comes to more than the caps of schematron_meaning counts as want of memory.
pub fn compile(alloc: Global, doc: &Doc<'_>) -> Result<Rules, RuleFault>
    ensures { Compiles doc.now result (rules_of (tree_nodes doc.now)) }
{
    compile_by::<Brand>(alloc, doc, Blank::new(1))
}

/// The same by steps that nobody asks for.
fn compile_by<L: Ledger>(alloc: Global, doc: &Doc<'_>, ledger: Blank) -> Result<Rules, RuleFault>
    requires name { ledger.name ≡ L.name }
    requires parts { ledger.parts ≡ L.parts }
    requires some { 0 < ledger.parts }
    ensures { Compiles doc.now result (rules_of (tree_nodes doc.now)) }
{
    let mut steps = Steps::<L>::new(ledger);
    match comes_to(alloc, doc, &mut steps) {
        Ok(compiled) => match Rules::of(compiled) {
            Ok(rules) => Ok(rules),
            Err(_) => Err(want_of_memory()),
        },
        Err(Refusal::Refused(fault)) => Err(told(doc, &fault)),
        Err(Refusal::Memory) => Err(want_of_memory()),
    }
}

fn want_of_memory() -> RuleFault
    ensures { result ≡ want_of_memory }
{
    RuleFault {
        kind: RuleKind::Memory,
        place: Place { byte: 0 },
        attribute: None,
    }
}

/// A fault by the place of its node.
fn told(doc: &Doc<'_>, fault: &Fault) -> RuleFault
    requires { fault.now.node < length doc.now.nodes }
    ensures { result ≡ told doc.now fault.now }
{
    RuleFault {
        kind: fault.kind,
        place: doc.place(fault.node),
        attribute: fault.attribute,
    }
}

/// What the rule file of a document comes to, or its first fault.
fn comes_to<L: Ledger>(
    alloc: Global,
    doc: &Doc<'_>,
    steps: &mut Steps<L>,
) -> Result<Compiled, Refusal>
    ensures answer { ComesTo result (rules_of (tree_nodes doc.now)) }
    ensures node { IfErr result (IsOfANode (length doc.now.nodes)) }
{
    nodes_are_in_order(doc);
    faults_tell_nodes();
    match read(alloc, doc, steps) {
        Ok(entries) => of_entries(alloc, &entries),
        Err(_) => Err(Refusal::Memory),
    }
}

fn of_entries(alloc: Global, entries: &[Entry<'_>]) -> Result<Compiled, Refusal>
    ensures { (nodes : List Node) → AreInOrder nodes → seen_entries entries.now ≡ meaning.entries nodes → ComesTo result (rules_of nodes) }
{
    match RuleFile::of(alloc, entries) {
        Ok(file) => of_file(alloc, &file),
        Err(_) => Err(Refusal::Memory),
    }
}

/// What a file says that was read of a document, or its first fault.
fn of_file(alloc: Global, file: &RuleFile<'_, '_>) -> Result<Compiled, Refusal>
    ensures { (nodes : List Node) → AreInOrder nodes → file.now ≡ file_of (meaning.entries nodes) → ComesTo result (rules_of nodes) }
{
    match first_fault(alloc, file) {
        Ok(found) => unless_refused(alloc, file, found),
        Err(_) => Err(Refusal::Memory),
    }
}

/// What a file says unless it has a fault.
fn unless_refused(
    alloc: Global,
    file: &RuleFile<'_, '_>,
    found: Option<Fault>,
) -> Result<Compiled, Refusal>
    ensures { (nodes : List Node) → AreInOrder nodes → file.now ≡ file_of (meaning.entries nodes) → found ≡ faults.first_fault nodes →
        ComesTo result (rules_of nodes) }
{
    match found {
        Some(fault) => Err(Refusal::Refused(fault)),
        None => built(alloc, file),
    }
}

fn built(alloc: Global, file: &RuleFile<'_, '_>) -> Result<Compiled, Refusal>
    ensures { ComesTo result (Ok (compiled file.now)) }
{
    match build(alloc, file) {
        Ok(rules) => Ok(rules),
        Err(_) => Err(Refusal::Memory),
    }
}
