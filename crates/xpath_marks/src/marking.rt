//! What a pattern finds, by its parts.
ghost use Rattle.std.specs.Prelude.{◌≡◌, [], true, length, Some, IfOk};
ghost use Rattle.inv_base.specs.Tree.{Name};
ghost use Rattle.xpath_meaning.specs.Expressions as x;
ghost use Rattle.xpath_meaning.specs.Expressions.{Exp, named};
ghost use Rattle.xpath_meaning.specs.Resolving.{chained, chained_on, linked};
ghost use Rattle.xpath_plan.specs.Plans.{seen, label_of};
ghost use Rattle.xpath_parts.specs.Contexts.{IsReadyFor, operands_of};
ghost use Rattle.xpath_parts.specs.Slots.{AreHeld, PlacedParts, PlacedWork};
ghost use Rattle.xpath_walks.specs.Walks.{Bounds, chain_of};
ghost use Rattle.xpath_marks.specs.FirstSteps.{is_found_by_first};
ghost use Rattle.xpath_marks.specs.Marking as spec;
ghost use Rattle.xpath_marks.specs.Marking.{AreNodes, FoundByStep, Marked, nodes_of, united_of};
ghost use Rattle.xpath_marks.specs.Shapes.{alone};

use crate::first_steps::{all_of_name, filtered_name, from_around};
use crate::inside::{all_inside, all_nodes};
use crate::steps::{is_first_part, reached};
use inv_base::Steps;
use node_arena::NodeId;
use std::alloc::AllocError;
use std::sync::ledger::Ledger;
use xpath_parts::parts::is_operator;
use xpath_parts::{DynamicContext, Slots, child_name, is_chain};
use xpath_plan::plan_node::{Operation, PlanNode, Separator, Simple};
use xpath_tokens::token::Operator;
use xpath_walks::{documents_are_walkable, in_order};

/// How a part of a pattern is joined to what stands before it.
#[derive(Clone, Copy)]
enum Joining {
    /// `/`
    Below,
    /// `//`
    Inside,
    /// `|`
    Beside,
    /// As in no pattern.
    Otherwise,
}

fn joining_of(link: Separator) -> Joining
    ensures { result ≡ spec.joining_of link }
{
    match link {
        Separator::Operator(Operator::Slash) => Joining::Below,
        Separator::Operator(Operator::DoubleSlash) => Joining::Inside,
        Separator::Operator(Operator::Bar) => Joining::Beside,
        _ => Joining::Otherwise,
    }
}

/// What a step alone finds: what it reaches from some node.
fn from_everywhere<'a, L: Ledger>(
    dynamic: &DynamicContext<'_, 'a>,
    work: &'a PlanNode,
    slots: &mut Slots<'a>,
    steps: &mut Steps<L>,
) -> Result<Vec<NodeId>, AllocError>
    requires ready { IsReadyFor dynamic.now [] }
    requires placed { PlacedWork dynamic.now work.now }
    requires slots { AreHeld dynamic.now slots.old }
    ensures marked { IfOk result (λ found. FoundByStep dynamic.now (seen dynamic.now.names.now work.now) found.items) }
    ensures within { IfOk result (λ found. AreNodes dynamic.now found.items) }
    ensures held { AreHeld dynamic.now slots.new }
{
    documents_are_walkable(dynamic.doc);
    let all = all_nodes(dynamic, steps)?;
    reached(dynamic, work, all.as_slice(), slots, steps)
}

/// The document alone.
fn the_root(dynamic: &DynamicContext<'_, '_>) -> Result<Vec<NodeId>, AllocError>
    ensures marked { IfOk result (λ found. Marked dynamic.now x.the_root found.items) }
    ensures within { IfOk result (λ found. AreNodes dynamic.now found.items) }
{
    documents_are_walkable(dynamic.doc);
    let mut found = Vec::new(dynamic.alloc);
    found.push(dynamic.doc.document())?;
    Ok(found)
}

fn is_root(simple: &Simple) -> bool
    ensures { result ≡ spec.is_root simple.now }
{
    match simple {
        Simple::Root => true,
        _ => false,
    }
}

/// Whether what the kind makes of its parts finds what the first part does: it is that part, or a step without
/// predicates.
fn is_found_by_first(kind: &Operation, link: Separator, alone: bool) -> bool
    ensures { result ≡ is_found_by_first kind.now link alone }
{
    match kind {
        Operation::FilteredStep | Operation::FreeStep => alone,
        _ => is_first_part(kind, link, alone),
    }
}

/// What a pattern without parts finds.
fn found_by_simple<'a, L: Ledger>(
    dynamic: &DynamicContext<'_, 'a>,
    work: &'a PlanNode,
    simple: &Simple,
    slots: &mut Slots<'a>,
    steps: &mut Steps<L>,
) -> Result<Vec<NodeId>, AllocError>
    requires ready { IsReadyFor dynamic.now [] }
    requires is { work.now ≡ PlanNode.Simple simple.now }
    requires placed { PlacedWork dynamic.now work.now }
    requires slots { AreHeld dynamic.now slots.old }
    ensures marked { IfOk result (λ found. Marked dynamic.now (seen dynamic.now.names.now work.now) found.items) }
    ensures within { IfOk result (λ found. AreNodes dynamic.now found.items) }
    ensures cost { (name : Name) → alone (seen dynamic.now.names.now work.now) ≡ Some name
        → Bounds (length (chain_of (nodes_of dynamic.now) (Some (named name)))) true result steps.old steps.new }
    ensures held { AreHeld dynamic.now slots.new }
{
    documents_are_walkable(dynamic.doc);
    if is_root(simple) {
        return the_root(dynamic);
    }
    match child_name(simple) {
        Some(k) => all_of_name(dynamic, k, steps),
        None => from_everywhere(dynamic, work, slots, steps),
    }
}

/// The nodes that the pattern finds from some node, in document order. Where it is no pattern, any nodes.
#[cycle(marking)]
pub(crate) fn found<'a, L: Ledger>(
    dynamic: &DynamicContext<'_, 'a>,
    work: &'a PlanNode,
    slots: &mut Slots<'a>,
    steps: &mut Steps<L>,
) -> Result<Vec<NodeId>, AllocError>
    requires ready { IsReadyFor dynamic.now [] }
    requires placed { PlacedWork dynamic.now work.now }
    requires slots { AreHeld dynamic.now slots.old }
    ensures marked { IfOk result (λ found. Marked dynamic.now (seen dynamic.now.names.now work.now) found.items) }
    ensures within { IfOk result (λ found. AreNodes dynamic.now found.items) }
    ensures cost { (name : Name) → alone (seen dynamic.now.names.now work.now) ≡ Some name
        → Bounds (length (chain_of (nodes_of dynamic.now) (Some (named name)))) true result steps.old steps.new }
    ensures held { AreHeld dynamic.now slots.new }
{
    match work {
        PlanNode::Simple(simple) => found_by_simple(dynamic, work, simple, slots, steps),
        PlanNode::Node(kind, parts) => {
            let Some((first, others)) = parts.as_slice().split_first() else {
                return from_everywhere(dynamic, work, slots, steps);
            };
            if is_found_by_first(kind, first.0, others.is_empty()) {
                return found(dynamic, &first.1, slots, steps);
            }
            if is_chain(kind) {
                return chain(dynamic, parts.as_slice(), slots, steps);
            }
            match filtered_name(kind, &first.1) {
                Some(k) => from_around(dynamic, work, k, slots, steps),
                None => from_everywhere(dynamic, work, slots, steps),
            }
        }
    }
}

/// Steps of a path or paths of a union, taken from the left. A path that begins with an operator begins at the root.
#[cycle(marking)]
fn chain<'a, L: Ledger>(
    dynamic: &DynamicContext<'_, 'a>,
    parts: &'a [(Separator, PlanNode)],
    slots: &mut Slots<'a>,
    steps: &mut Steps<L>,
) -> Result<Vec<NodeId>, AllocError>
    requires ready { IsReadyFor dynamic.now [] }
    requires placed { PlacedParts dynamic.now parts.now }
    requires slots { AreHeld dynamic.now slots.old }
    ensures marked { IfOk result (λ found. Marked dynamic.now (chained (operands_of dynamic.now.names.now parts.now)) found.items) }
    ensures within { IfOk result (λ found. AreNodes dynamic.now found.items) }
    ensures held { AreHeld dynamic.now slots.new }
{
    let Some((first, others)) = parts.split_first() else {
        return Ok(Vec::new(dynamic.alloc));
    };
    if is_operator(first.0) {
        let root = the_root(dynamic)?;
        links_on(dynamic, root, parts, slots, steps)
    } else {
        let before = found(dynamic, &first.1, slots, steps)?;
        links_on(dynamic, before, others, slots, steps)
    }
}

/// What parts find that are linked to what found these nodes.
#[cycle(marking)]
fn links_on<'a, L: Ledger>(
    dynamic: &DynamicContext<'_, 'a>,
    before: Vec<NodeId>,
    parts: &'a [(Separator, PlanNode)],
    slots: &mut Slots<'a>,
    steps: &mut Steps<L>,
) -> Result<Vec<NodeId>, AllocError>
    requires ready { IsReadyFor dynamic.now [] }
    requires before { AreNodes dynamic.now before.items }
    requires placed { PlacedParts dynamic.now parts.now }
    requires slots { AreHeld dynamic.now slots.old }
    ensures marked { IfOk result (λ found. (e : Exp) → Marked dynamic.now e before.items
        → Marked dynamic.now (chained_on e (operands_of dynamic.now.names.now parts.now)) found.items) }
    ensures within { IfOk result (λ found. AreNodes dynamic.now found.items) }
    ensures held { AreHeld dynamic.now slots.new }
{
    let mut before = before;
    'parts: for part in parts {
        before = link_on(dynamic, before, part.0, &part.1, slots, steps)?;
    }
    Ok(before)
}

/// What a part finds that is linked to what found these nodes.
#[cycle(marking)]
fn link_on<'a, L: Ledger>(
    dynamic: &DynamicContext<'_, 'a>,
    before: Vec<NodeId>,
    link: Separator,
    work: &'a PlanNode,
    slots: &mut Slots<'a>,
    steps: &mut Steps<L>,
) -> Result<Vec<NodeId>, AllocError>
    requires ready { IsReadyFor dynamic.now [] }
    requires before { AreNodes dynamic.now before.items }
    requires placed { PlacedWork dynamic.now work.now }
    requires slots { AreHeld dynamic.now slots.old }
    ensures marked { IfOk result (λ found. (e : Exp) → Marked dynamic.now e before.items
        → Marked dynamic.now (linked e (label_of link) (seen dynamic.now.names.now work.now)) found.items) }
    ensures within { IfOk result (λ found. AreNodes dynamic.now found.items) }
    ensures held { AreHeld dynamic.now slots.new }
{
    documents_are_walkable(dynamic.doc);
    match joining_of(link) {
        Joining::Below => reached(dynamic, work, before.as_slice(), slots, steps),
        Joining::Inside => {
            let inside = all_inside(dynamic, before.as_slice(), steps)?;
            reached(dynamic, work, inside.as_slice(), slots, steps)
        }
        Joining::Beside => {
            let other = found(dynamic, work, slots, steps)?;
            united(dynamic, before, other)
        }
        Joining::Otherwise => Ok(Vec::new(dynamic.alloc)),
    }
}

/// The nodes of both, in document order, each once.
fn united(
    dynamic: &DynamicContext<'_, '_>,
    before: Vec<NodeId>,
    other: Vec<NodeId>,
) -> Result<Vec<NodeId>, AllocError>
    requires before { AreNodes dynamic.now before.items }
    requires other { AreNodes dynamic.now other.items }
    ensures marked { IfOk result (λ found. found.items ≡ united_of dynamic.now before.items other.items) }
    ensures within { IfOk result (λ found. AreNodes dynamic.now found.items) }
{
    let mut both = before;
    let mut other = other;
    both.append(&mut other)?;
    documents_are_walkable(dynamic.doc);
    Ok(in_order(both))
}
