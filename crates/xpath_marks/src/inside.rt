//! All nodes of a document, and all that are inside some.
ghost use Rattle.std.specs.Prelude.{◌≡◌, ◌<◌, ◌&&◌, ◌++◌, not, IfOk, IfSome, OnOk};
ghost use Rattle.node_arena.specs.Moves.{tree_node, is_inside, is_attribute};
ghost use Rattle.xpath_meaning.specs.Resolving as meaning;
ghost use Rattle.xpath_parts.specs.Contexts.{count};
ghost use Rattle.xpath_marks.specs.Found.{all_reached};
ghost use Rattle.xpath_meaning.specs.Patterns.{found_at};
ghost use Rattle.xpath_marks.specs.Marking as spec;
ghost use Rattle.xpath_marks.specs.Marking.{AreNodes, nodes_of};
ghost use Rattle.xpath_walks.specs.Walks.{node_numbers};

use inv_base::{Kind, Steps};
use node_arena::NodeId;
use std::alloc::AllocError;
use std::sync::ledger::Ledger;
use xpath_grammar::step::{Axis, KindTest};
use xpath_parts::DynamicContext;
use xpath_plan::plan_node::StepTest;
use xpath_walks::{Step, axis_nodes, documents_are_walkable, in_order, is_around};

/// All nodes.
pub(crate) fn all_nodes<L: Ledger>(
    dynamic: &DynamicContext<'_, '_>,
    steps: &mut Steps<L>,
) -> Result<Vec<NodeId>, AllocError>
    ensures all { IfOk result (λ all. all.items ≡ node_numbers (nodes_of dynamic.now)) }
    ensures within { IfOk result (λ all. AreNodes dynamic.now all.items) }
{
    documents_are_walkable(dynamic.doc);
    let mut all = Vec::new(dynamic.alloc);
    let mut next = Some(dynamic.doc.document());
    'nodes: while let Some(n) = next {
        all.push(n)?;
        next = dynamic.doc.next_node(n, steps);
    }
    Ok(all)
}

/// Whether the node is no attribute and inside the other.
fn is_covered_by<L: Ledger>(
    dynamic: &DynamicContext<'_, '_>,
    around: NodeId,
    n: NodeId,
    steps: &mut Steps<L>,
) -> bool
    requires around { around < count dynamic.now }
    requires within { n < count dynamic.now }
    ensures { result ≡ (is_inside around (tree_node (nodes_of dynamic.now) n) && not (is_attribute (tree_node (nodes_of dynamic.now) n))) }
{
    is_around(dynamic.doc, around, n, steps) && is_no_attribute(dynamic, n)
}

fn is_no_attribute(dynamic: &DynamicContext<'_, '_>, n: NodeId) -> bool
    requires { n < count dynamic.now }
    ensures { result ≡ not (is_attribute (tree_node (nodes_of dynamic.now) n)) }
{
    match dynamic.doc.kind(n) {
        Kind::Attribute => false,
        Kind::Document | Kind::Element | Kind::Text => true,
    }
}

/// Puts a node and all that is inside it but attributes behind the others.
fn put_inside<L: Ledger>(
    dynamic: &DynamicContext<'_, '_>,
    n: NodeId,
    out: &mut Vec<NodeId>,
    steps: &mut Steps<L>,
) -> Result<(), AllocError>
    requires { n < count dynamic.now }
    ensures { OnOk result (out.new.items ≡ out.old.items ++ found_at (nodes_of dynamic.now) dynamic.now.env.now meaning.all_inside n) }
{
    let step = Step {
        axis: Axis::DescendantOrSelf,
        test: &StepTest::Kind(KindTest::Node),
        numbers: &[],
    };
    axis_nodes(dynamic.doc, &step, n, out, steps)
}

/// Puts a node and what is inside it behind the others, unless another node is around it whose inside is out. Gives the node whose
/// inside is out then.
fn go_in<L: Ledger>(
    dynamic: &DynamicContext<'_, '_>,
    around: Option<NodeId>,
    n: NodeId,
    out: &mut Vec<NodeId>,
    steps: &mut Steps<L>,
) -> Result<NodeId, AllocError>
    requires around { IfSome around (λ m. m < count dynamic.now) }
    requires within { n < count dynamic.now }
    ensures { IfOk result (λ next. spec.GoesIn dynamic.now around n next out.old.items out.new.items) }
{
    match around {
        Some(around) if is_covered_by(dynamic, around, n, steps) => Ok(around),
        _ => {
            put_inside(dynamic, n, out, steps)?;
            Ok(n)
        }
    }
}

/// These nodes and all that is inside them but attributes, in document order. What is inside a node that was gone through isn't
/// gone through again.
pub(crate) fn all_inside<L: Ledger>(
    dynamic: &DynamicContext<'_, '_>,
    from: &[NodeId],
    steps: &mut Steps<L>,
) -> Result<Vec<NodeId>, AllocError>
    requires from { AreNodes dynamic.now from.now }
    ensures reached { IfOk result (λ found. found.items ≡ all_reached (nodes_of dynamic.now) dynamic.now.env.now meaning.all_inside from.now) }
    ensures within { IfOk result (λ found. AreNodes dynamic.now found.items) }
{
    documents_are_walkable(dynamic.doc);
    let mut out = Vec::new(dynamic.alloc);
    let mut around = None;
    'from: for n in from {
        around = Some(go_in(dynamic, around, *n, &mut out, steps)?);
    }
    Ok(in_order(out))
}
