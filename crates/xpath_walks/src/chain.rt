//! What a document has of an expanded name, along the chain of the elements and attributes of that name.
ghost use Rattle.std.specs.Prelude.{◌≡◌, ◌<◌, ◌≤◌, ◌+◌, List, Option, length, IfSome, true};
ghost use Rattle.inv_base.specs.Tree.{Name};
ghost use Rattle.node_arena.specs.Moves.{tree_nodes, tree_node, behind, first_that, has_name};
ghost use Rattle.xml_events.specs.Events.{name_at};
ghost use Rattle.xpath_meaning.specs.Expressions.{NodeTest};
ghost use Rattle.xpath_plan.specs.Plans.{test_seen};
ghost use Rattle.xpath_walks.specs.Tests.{numbers_of};
ghost use Rattle.xpath_walks.specs.Walks.{Adds, CostsChain, found_on, has_wanted, if_so, is_taken};

use crate::law::documents_are_walkable;
use crate::step::Step;
use crate::test::number_at;
use crate::walk::{Way, is_no_attribute, take_passing};
use inv_base::Steps;
use node_arena::{Doc, NodeId, chains_are_of_expanded_names, names_are_found_by_number};
use std::alloc::AllocError;
use std::sync::ledger::Ledger;
use xml_events::NameId;
use xpath_grammar::step::Axis;
use xpath_plan::plan_node::StepTest;

/// Puts the document's elements of the plan's k-th name, which the step wants, behind the others.
pub(crate) fn all_named<L: Ledger>(
    doc: &Doc<'_>,
    step: &Step<'_>,
    k: usize,
    out: &mut Vec<NodeId>,
    steps: &mut Steps<L>,
) -> Result<(), AllocError>
    requires { step.now.test.now ≡ StepTest.Named k }
    ensures found { Adds doc.now step.now result out.old.items out.new.items (found_on Axis.Descendant step.now.axis (tree_nodes doc.now) 0) }
    ensures cost { CostsChain doc.now step.now result steps.old steps.new }
{
    documents_are_walkable(doc);
    doc.is_of_a_tree();
    let mut next = first_named(doc, step.numbers, k, steps);
    'chain: while let Some(n) = next {
        take_element(doc, step, n, out)?;
        next = next_named(doc, n, steps);
    }
    Ok(())
}

/// Puts the node behind the others if it is no attribute and passes.
pub(crate) fn take_element(
    doc: &Doc<'_>,
    step: &Step<'_>,
    n: NodeId,
    out: &mut Vec<NodeId>,
) -> Result<(), AllocError>
    requires { n < length doc.now.nodes }
    ensures { Adds doc.now step.now result out.old.items out.new.items
        (λ test. if_so (is_taken Way.All (tree_nodes doc.now) step.now.axis test (tree_node (tree_nodes doc.now) n)) n) }
{
    if is_no_attribute(doc, n) {
        take_passing(doc, step, n, out)
    } else {
        Ok(())
    }
}

/// The first element or attribute of the plan's k-th name, given the numbers of the plan's names.
pub(crate) fn first_named<L: Ledger>(
    doc: &Doc<'_>,
    numbers: &[Option<NameId>],
    k: usize,
    steps: &mut Steps<L>,
) -> Option<NodeId>
    ensures node { (names : List Name) → numbers.now ≡ numbers_of doc.now.names names
        → result ≡ first_that (has_wanted (test_seen names (StepTest.Named k))) (tree_nodes doc.now) }
    ensures cost { (steps.old ≤ steps.new) × (steps.new ≤ steps.old + 1) }
    ensures within { IfSome result (λ m. m < length doc.now.nodes) }
{
    doc.is_of_a_tree();
    names_are_found_by_number();
    match number_at(numbers, k) {
        Some(name) => first_numbered(doc, name, steps),
        None => None,
    }
}

/// The first element or attribute of the name with the number.
fn first_numbered<L: Ledger>(doc: &Doc<'_>, name: NameId, steps: &mut Steps<L>) -> Option<NodeId>
    ensures node { name < length doc.now.names → result ≡ first_that (has_name (name_at doc.now.names name)) (tree_nodes doc.now) }
    ensures cost { (steps.old ≤ steps.new) × (steps.new ≤ steps.old + 1) }
    ensures within { IfSome result (λ m. m < length doc.now.nodes) }
{
    doc.is_of_a_tree();
    chains_are_of_expanded_names();
    if (name.number() as usize) < doc.names().len() {
        doc.first_named(name, steps)
    } else {
        None
    }
}

/// The next element or attribute of the node's name.
pub(crate) fn next_named<L: Ledger>(
    doc: &Doc<'_>,
    n: NodeId,
    steps: &mut Steps<L>,
) -> Option<NodeId>
    requires { n < length doc.now.nodes }
    ensures next { (test : Option NodeTest) → has_wanted test (tree_node (tree_nodes doc.now) n) ≡ true
        → result ≡ first_that (has_wanted test) (behind n (tree_nodes doc.now)) }
    ensures within { IfSome result (λ m. (n < m) × (m < length doc.now.nodes)) }
    ensures cost { steps.new ≡ steps.old + 1 }
{
    doc.is_of_a_tree();
    chains_are_of_expanded_names();
    doc.next_named(n, steps)
}
