//! The guards of a table's elements, judged at the elements of a document.

ghost use Rattle.std.specs.Prelude.{◌≡◌, ◌<◌, length, map, chars, IfOk};
ghost use Rattle.std.specs.List.{list_any, list_all};
ghost use Rattle.inv_terms.specs.Values.{trimmed};
ghost use Rattle.bind_walk.specs.Found as spec;

use crate::chains::chains_lead_on;
use crate::input::WalkInput;
use crate::names::{FoundLeaf, element_number, has_name, leaf_number};
use crate::strings::is_trimmed;
use bind_rows::{Copied, ElementName, Guard, Many, Test};
use inv_base::{Steps, Txt};
use inv_terms::is_blank;
use node_arena::{Doc, NodeId};
use std::alloc::{AllocError, Global};
use std::sync::ledger::Ledger;

/// A guard of a table with its names as the document has them.
pub struct FoundGuard {
    pub path: Many<Option<u32>>,
    pub leaf: FoundLeaf,
    pub test: Test,
}

impl Drop for FoundGuard {
    fn drop(self) {
        let FoundGuard { path, leaf, test } = self;
        drop(path);
        drop(leaf);
        drop(test);
    }
}

/// Guards with their names as the document has them.
pub fn find_guards(
    alloc: Global,
    doc: &Doc<'_>,
    guards: &[Guard],
) -> Result<Many<FoundGuard>, AllocError>
    ensures { IfOk result (λ found. found ≡ map (spec.found_guard doc.now) guards.now) }
{
    let mut found = Many::new(alloc);
    'guards: for guard in guards {
        found.push(find_guard(alloc, doc, guard)?)?;
    }
    Ok(found)
}

fn find_guard(alloc: Global, doc: &Doc<'_>, guard: &Guard) -> Result<FoundGuard, AllocError>
    ensures { IfOk result (λ found. found ≡ spec.found_guard doc.now guard.now) }
{
    Ok(FoundGuard {
        path: find_path(alloc, doc, guard.place.path.as_slice())?,
        leaf: leaf_number(alloc, doc, &guard.place.leaf)?,
        test: guard.test.copied(alloc)?,
    })
}

fn find_path(
    alloc: Global,
    doc: &Doc<'_>,
    path: &[ElementName],
) -> Result<Many<Option<u32>>, AllocError>
    ensures { IfOk result (λ found. found ≡ map (spec.found_element doc.now) path.now) }
{
    let mut found = Many::new(alloc);
    'names: for name in path {
        found.push(element_number(alloc, doc, name)?)?;
    }
    Ok(found)
}

/// Whether all guards are met at an element.
pub fn are_met<L: Ledger>(
    input: &WalkInput<'_, '_>,
    n: NodeId,
    guards: &[FoundGuard],
    steps: &mut Steps<L>,
) -> Result<bool, AllocError>
    requires { n < length input.now.doc.now.nodes }
    ensures { IfOk result (λ met. met ≡ list_all (spec.is_met input.now.doc.now n) guards.now) }
{
    'guards: for guard in guards {
        if !is_met(input, n, guard, steps)? {
            return Ok(false);
        }
    }
    Ok(true)
}

fn is_met<L: Ledger>(
    input: &WalkInput<'_, '_>,
    n: NodeId,
    guard: &FoundGuard,
    steps: &mut Steps<L>,
) -> Result<bool, AllocError>
    requires { n < length input.now.doc.now.nodes }
    ensures { IfOk result (λ met. met ≡ spec.is_met input.now.doc.now n guard.now) }
{
    let found = some_below(input, n, guard.path.as_slice(), guard, steps)?;
    Ok(found == is_positive(&guard.test))
}

/// Whether the guard is met where such a node is there, and not where none is.
fn is_positive(test: &Test) -> bool
    ensures { result ≡ spec.is_positive test.now }
{
    match test {
        Test::OneOf(_) | Test::Present => true,
        Test::NoneOf(_) | Test::Absent => false,
    }
}

/// Whether a node at the end of the path has a string that the guard looks for.
#[cycle(below)]
fn some_below<L: Ledger>(
    input: &WalkInput<'_, '_>,
    n: NodeId,
    path: &[Option<u32>],
    guard: &FoundGuard,
    steps: &mut Steps<L>,
) -> Result<bool, AllocError>
    requires { n < length input.now.doc.now.nodes }
    ensures { IfOk result (λ found. found ≡ spec.some_below input.now.doc.now guard.now path.now n) }
{
    let Some((name, deeper)) = path.split_first() else {
        return is_at(input, n, guard, steps);
    };
    chains_lead_on(input.doc);
    let mut at = input.doc.first_child(n, steps);
    'children: while let Some(m) = at {
        if some_at(input, m, *name, deeper, guard, steps)? {
            return Ok(true);
        }
        at = input.doc.next_sibling(m, steps);
    }
    Ok(false)
}

/// The same for one child: where it has the name, below it.
#[cycle(below)]
fn some_at<L: Ledger>(
    input: &WalkInput<'_, '_>,
    n: NodeId,
    name: Option<u32>,
    path: &[Option<u32>],
    guard: &FoundGuard,
    steps: &mut Steps<L>,
) -> Result<bool, AllocError>
    requires { n < length input.now.doc.now.nodes }
    ensures { IfOk result (λ found. found ≡ spec.some_at input.now.doc.now guard.now name path.now n) }
{
    if !has_name(input.doc, n, name) {
        return Ok(false);
    }
    some_below(input, n, path, guard, steps)
}

/// Whether the element, or the attribute of it that the guard names, has a string that the guard looks for.
fn is_at<L: Ledger>(
    input: &WalkInput<'_, '_>,
    n: NodeId,
    guard: &FoundGuard,
    steps: &mut Steps<L>,
) -> Result<bool, AllocError>
    requires { n < length input.now.doc.now.nodes }
    ensures { IfOk result (λ found. found ≡ spec.is_at input.now.doc.now guard.now.test guard.now.leaf n) }
{
    match &guard.leaf {
        FoundLeaf::Element => holds(input, n, &guard.test, steps),
        FoundLeaf::Attribute(name) => some_attribute(input, n, *name, &guard.test, steps),
    }
}

fn some_attribute<L: Ledger>(
    input: &WalkInput<'_, '_>,
    n: NodeId,
    name: Option<u32>,
    test: &Test,
    steps: &mut Steps<L>,
) -> Result<bool, AllocError>
    requires { n < length input.now.doc.now.nodes }
    ensures { IfOk result (λ found. found ≡ spec.some_attribute input.now.doc.now test.now name n) }
{
    chains_lead_on(input.doc);
    let mut at = input.doc.first_attribute(n, steps);
    'attributes: while let Some(m) = at {
        if holds_named(input, m, name, test, steps)? {
            return Ok(true);
        }
        at = input.doc.next_attribute(m, steps);
    }
    Ok(false)
}

fn holds_named<L: Ledger>(
    input: &WalkInput<'_, '_>,
    n: NodeId,
    name: Option<u32>,
    test: &Test,
    steps: &mut Steps<L>,
) -> Result<bool, AllocError>
    requires { n < length input.now.doc.now.nodes }
    ensures { IfOk result (λ found. found ≡ spec.holds_named input.now.doc.now test.now name n) }
{
    if !has_name(input.doc, n, name) {
        return Ok(false);
    }
    holds(input, n, test, steps)
}

/// Whether a node's string is one that the test looks for.
fn holds<L: Ledger>(
    input: &WalkInput<'_, '_>,
    n: NodeId,
    test: &Test,
    steps: &mut Steps<L>,
) -> Result<bool, AllocError>
    requires { n < length input.now.doc.now.nodes }
    ensures { IfOk result (λ found. found ≡ spec.holds input.now.doc.now test.now n) }
{
    let string = input.doc.string(input.alloc, n, steps)?;
    Ok(looks_for(test, string.as_str()))
}

fn looks_for(test: &Test, string: &str) -> bool
    ensures { result ≡ spec.looks_for test.now (trimmed (chars string.now)) }
{
    match test {
        Test::OneOf(texts) => is_one_of(string, texts.as_slice()),
        Test::NoneOf(texts) => is_one_of(string, texts.as_slice()),
        Test::Present => !is_blank(string),
        Test::Absent => !is_blank(string),
    }
}

fn is_one_of(string: &str, texts: &[Txt]) -> bool
    ensures { result ≡ spec.is_one_of texts.now (trimmed (chars string.now)) }
{
    texts.iter().any(|text| is_trimmed(string, text))
}
