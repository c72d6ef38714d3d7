//! Tests of nodes: a name is looked up once in a document's table, so that a test at a node compares two numbers.
ghost use Rattle.std.specs.Prelude.{◌≡◌, ◌<◌, List, length, get_or, chars, IfOk, Some, None, false};
ghost use Rattle.inv_base.specs.Tree.{Name};
ghost use Rattle.std.specs.Str.{bytes_eq};
ghost use Rattle.node_arena.specs.Moves.{tree_nodes, tree_node, has_name};
ghost use Rattle.xml_events.specs.Names.{find_name};
ghost use Rattle.xpath_meaning.specs.Axes as meaning;
ghost use Rattle.xpath_meaning.specs.Axes.{has_name_that};
ghost use Rattle.xpath_plan.specs.Plans.{test_seen};
ghost use Rattle.xpath_walks.specs.Tests.{numbers_of, is_passed};

use inv_base::{Kind, is_same_text};
use node_arena::{Doc, NodeId, names_are_found_by_number};
use std::alloc::{AllocError, Global};
use xml_events::NameId;
use xpath_grammar::step::{Axis, KindTest};
use xpath_plan::NameTable;
use xpath_plan::plan_node::StepTest;

/// Of each name of a plan the number that it has in the document's table, None where no element and no attribute has
/// it. It is made once, before the plan is run over the document.
pub fn numbers_in(
    alloc: Global,
    doc: &Doc<'_>,
    table: &NameTable,
) -> Result<Vec<Option<NameId>>, AllocError>
    ensures { IfOk result (λ numbers. numbers.items ≡ numbers_of doc.now.names table.now) }
{
    let mut numbers = Vec::new(alloc);
    'names: for k in 0..table.len() {
        let number = number_in(alloc, doc, table, k)?;
        numbers.push(number)?;
    }
    Ok(numbers)
}

/// The number in the document's table of the plan's k-th name.
fn number_in(
    alloc: Global,
    doc: &Doc<'_>,
    table: &NameTable,
    k: usize,
) -> Result<Option<NameId>, AllocError>
    ensures { IfOk result (λ number. number ≡ get_or (numbers_of doc.now.names table.now) k None) }
{
    let Some(uri) = table.uri(k) else {
        return Ok(None);
    };
    let Some(local) = table.local(k) else {
        return Ok(None);
    };
    doc.names().find(alloc, uri, local)
}

/// Whether a node passes a step's test on an axis (XPath 2.0, section 3.2.1.2), given the numbers of the plan's names.
pub fn is_passing(
    doc: &Doc<'_>,
    numbers: &[Option<NameId>],
    axis: Axis,
    test: &StepTest,
    n: NodeId,
) -> bool
    requires { n < length doc.now.nodes }
    ensures { (names : List Name) → numbers.now ≡ numbers_of doc.now.names names
        → result ≡ is_passed axis (test_seen names test.now) (tree_node (tree_nodes doc.now) n) }
{
    match test {
        StepTest::Named(k) => is_named(doc, numbers, axis, *k, n),
        StepTest::InNamespace(uri) => is_principal(axis, doc.kind(n))
            && is_in_namespace(doc, uri.as_str(), n),
        StepTest::WithLocal(local) => is_principal(axis, doc.kind(n))
            && has_local(doc, local.as_str(), n),
        StepTest::AnyName => is_principal(axis, doc.kind(n)),
        StepTest::Kind(kind) => has_kind(*kind, doc.kind(n)),
    }
}

/// Whether a node passes the test for the plan's k-th name.
fn is_named(doc: &Doc<'_>, numbers: &[Option<NameId>], axis: Axis, k: usize, n: NodeId) -> bool
    requires { n < length doc.now.nodes }
    ensures { (names : List Name) → numbers.now ≡ numbers_of doc.now.names names
        → result ≡ is_passed axis (test_seen names (StepTest.Named k)) (tree_node (tree_nodes doc.now) n) }
{
    is_principal(axis, doc.kind(n)) && has_number(doc, number_at(numbers, k), n)
}

/// The same where the name has this number in the document.
pub(crate) fn is_numbered(
    doc: &Doc<'_>,
    numbers: &[Option<NameId>],
    axis: Axis,
    k: usize,
    number: NameId,
    n: NodeId,
) -> bool
    requires number { Some number ≡ get_or numbers.now k None }
    requires within { n < length doc.now.nodes }
    ensures { (names : List Name) → numbers.now ≡ numbers_of doc.now.names names
        → result ≡ is_passed axis (test_seen names (StepTest.Named k)) (tree_node (tree_nodes doc.now) n) }
{
    has_number(doc, Some(number), n) && is_principal(axis, doc.kind(n))
}

/// The number of the k-th name.
pub(crate) fn number_at(numbers: &[Option<NameId>], k: usize) -> Option<NameId>
    ensures { result ≡ get_or numbers.now k None }
{
    match numbers.get(k) {
        Some(number) => *number,
        None => None,
    }
}

/// Whether a name has the number on an axis, where there is such a number.
pub(crate) fn has_number(doc: &Doc<'_>, number: Option<NameId>, n: NodeId) -> bool
    requires { n < length doc.now.nodes }
    ensures found { (name : Name) → number ≡ find_name name doc.now.names → result ≡ has_name name (tree_node (tree_nodes doc.now) n) }
    ensures none { number ≡ None → result ≡ false }
{
    doc.is_of_a_tree();
    names_are_found_by_number();
    match (number, doc.name(n)) {
        (Some(number), Some(name)) => name == number,
        _ => false,
    }
}

fn is_in_namespace(doc: &Doc<'_>, uri: &str, n: NodeId) -> bool
    requires { n < length doc.now.nodes }
    ensures { result ≡ has_name_that (λ name. bytes_eq name.uri (chars uri.now)) (tree_node (tree_nodes doc.now) n) }
{
    match doc.name(n) {
        Some(name) => is_same_text(doc.names().uri(name), uri),
        None => false,
    }
}

fn has_local(doc: &Doc<'_>, local: &str, n: NodeId) -> bool
    requires { n < length doc.now.nodes }
    ensures { result ≡ has_name_that (λ name. bytes_eq name.local (chars local.now)) (tree_node (tree_nodes doc.now) n) }
{
    match doc.name(n) {
        Some(name) => is_same_text(doc.names().local(name), local),
        None => false,
    }
}

/// Whether a name test means nodes of the kind on the axis.
fn is_principal(axis: Axis, kind: Kind) -> bool
    ensures { result ≡ meaning.is_principal axis kind }
{
    match axis {
        Axis::Attribute => kind == Kind::Attribute,
        _ => kind == Kind::Element,
    }
}

fn has_kind(test: KindTest, kind: Kind) -> bool
    ensures { result ≡ meaning.has_kind test kind }
{
    match test {
        KindTest::Node => true,
        KindTest::Text => kind == Kind::Text,
        KindTest::Element => kind == Kind::Element,
        KindTest::Attribute => kind == Kind::Attribute,
        KindTest::DocumentNode => kind == Kind::Document,
    }
}
