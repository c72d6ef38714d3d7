//! What is inside several nodes, where what is inside a node inside another isn't gone over again.
ghost use Rattle.std.specs.Prelude.{◌≡◌, ◌<◌, List, length, IfOk, IfSome};
ghost use Rattle.std.specs.List.{flat_map};
ghost use Rattle.inv_base.specs.Tree.{Name, is_among};
ghost use Rattle.node_arena.specs.Moves.{tree_nodes};
ghost use Rattle.xpath_operators.specs.Nodes.{AreWithin};
ghost use Rattle.xpath_plan.specs.Plans.{test_seen};
ghost use Rattle.xpath_steps.specs.Insides.{GoesIn, HasSame, numbers_inside};
ghost use Rattle.xpath_walks.specs.Order.{node_items};
ghost use Rattle.xpath_walks.specs.Tests.{numbers_of};

use inv_base::Steps;
use node_arena::{Doc, NodeId};
use std::alloc::{AllocError, Global};
use std::sync::ledger::Ledger;
use xml_events::NameId;
use xpath_grammar::step::Axis;
use xpath_plan::plan_node::StepTest;
use xpath_walks::{Step, axis_nodes, documents_are_walkable, is_around};

/// Puts what is inside the node and passes behind the others, unless the node is inside another one whose inside is there.
/// Gives the node whose inside is there then.
fn go_in<L: Ledger>(
    doc: &Doc<'_>,
    step: &Step<'_>,
    around: Option<NodeId>,
    n: NodeId,
    out: &mut Vec<NodeId>,
    steps: &mut Steps<L>,
) -> Result<NodeId, AllocError>
    requires axis { step.now.axis ≡ Axis.Descendant }
    requires around { IfSome around (λ m. m < length doc.now.nodes) }
    requires within { n < length doc.now.nodes }
    ensures goes { (names : List Name) → step.now.numbers.now ≡ numbers_of doc.now.names names
        → IfOk result (λ next. GoesIn (tree_nodes doc.now) (test_seen names step.now.test.now) around n next out.old.items out.new.items) }
    ensures within { IfOk result (λ next. next < length doc.now.nodes) }
{
    match around {
        Some(around) if is_around(doc, around, n, steps) => Ok(around),
        _ => {
            axis_nodes(doc, step, n, out, steps)?;
            Ok(n)
        }
    }
}

/// What is inside the nodes and passes the test, each at least once.
pub(crate) fn nodes_inside<L: Ledger>(
    alloc: Global,
    doc: &Doc<'_>,
    test: &StepTest,
    numbers: &[Option<NameId>],
    from: &[NodeId],
    steps: &mut Steps<L>,
) -> Result<Vec<NodeId>, AllocError>
    requires { AreWithin (length doc.now.nodes) (node_items from.now) }
    ensures { (names : List Name) → numbers.now ≡ numbers_of doc.now.names names
        → IfOk result (λ found. HasSame found.items (flat_map (numbers_inside (tree_nodes doc.now) (test_seen names test.now)) from.now)) }
{
    documents_are_walkable(doc);
    let step = Step {
        axis: Axis::Descendant,
        test,
        numbers,
    };
    let mut found = Vec::new(alloc);
    let mut around = None;
    'from: for n in from {
        around = Some(go_in(doc, &step, around, *n, &mut found, steps)?);
    }
    Ok(found)
}
