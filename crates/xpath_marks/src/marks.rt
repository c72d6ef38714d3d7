ghost use Rattle.std.specs.Prelude.{◌≡◌, true, length, slice_get, Some, IfOk};
ghost use Rattle.inv_base.specs.Tree.{Name};
ghost use Rattle.node_arena.specs.Moves.{tree_nodes};
ghost use Rattle.xpath_meaning.specs.Expressions.{named};
ghost use Rattle.xpath_meaning.specs.Patterns as meaning;
ghost use Rattle.xpath_operators.specs.Nodes.{AreWithin};
ghost use Rattle.xpath_plan.specs.Plans.{expression};
ghost use Rattle.xpath_steps.specs.Variables.{ValuesWithin};
ghost use Rattle.xpath_walks.specs.Order.{node_items};
ghost use Rattle.xpath_walks.specs.Walks.{Bounds, chain_of};
ghost use Rattle.xpath_marks.specs.Shapes.{alone, is_pattern};

use crate::law::marks_are_found;
use crate::marking::found;
use inv_base::Steps;
use node_arena::{Doc, NodeId};
use std::alloc::{AllocError, Global};
use std::marker::Model;
use std::sync::ledger::Ledger;
use xpath_parts::{DynamicContext, Slots};
use xpath_plan::Plan;
use xpath_run::Env;
use xpath_walks::{documents_are_walkable, numbers_in};

/// The nodes of a document that a pattern matches, in document order. Contracts see the list of their numbers.
pub struct Marks {
    nodes: Vec<NodeId>,
}

impl Drop for Marks {
    fn drop(self) {
        let Marks { nodes } = self;
        drop(nodes);
    }
}

impl Model for Marks {
    ghost use Rattle.std.specs.Prelude.{List, ℕ};

    ghost Value = { List ℕ };

    ghost view = { λ marks. marks.nodes.items };
}

impl Marks {
    /// The k-th of the nodes, from 0.
    pub fn get(&self, k: usize) -> Option<NodeId>
        ensures { result ≡ slice_get self.now k }
    {
        self.nodes.get(k).copied()
    }

    /// How many there are.
    pub fn len(&self) -> usize
        ensures { result ≡ length self.now }
    {
        self.nodes.len()
    }

    /// The nodes, in document order.
    pub fn as_slice(&self) -> &[NodeId]
        ensures { result.now ≡ self.now }
    {
        self.nodes.as_slice()
    }
}

/// All nodes of the document that the plan's pattern matches, in document order, where these are the values of the
/// variables (XSLT 2.0, section 5.5.3). The pattern is evaluated once over the document: from each step's nodes the
/// next step is taken, and each predicate is evaluated once at a node that stands before it. Each move takes a step.
/// A pattern that is a full name alone goes along the elements and attributes of that name, and over no other node.
/// Of a plan that is no pattern's it gives any nodes.
pub fn marks_of<L: Ledger>(
    alloc: Global,
    plan: &Plan,
    doc: &Doc<'_>,
    env: &Env<'_>,
    steps: &mut Steps<L>,
) -> Result<Marks, AllocError>
    requires { ValuesWithin (length doc.now.nodes) env.now }
    ensures marks { IfOk result (λ found. is_pattern (expression plan.now) ≡ true → found ≡ meaning.marks (tree_nodes doc.now) env.now (expression plan.now)) }
    ensures within { IfOk result (λ found. AreWithin (length doc.now.nodes) (node_items found)) }
    ensures cost { (name : Name) → alone (expression plan.now) ≡ Some name
        → Bounds (length (chain_of (tree_nodes doc.now) (Some (named name)))) true result steps.old steps.new }
{
    marks_over(alloc, plan, doc, env, steps)
}

/// The same, where what the document and the variables borrow lives as long as the plan, which lends its literals: so do
/// the values that are kept meanwhile.
fn marks_over<'a, L: Ledger>(
    alloc: Global,
    plan: &'a Plan,
    doc: &Doc<'a>,
    env: &Env<'a>,
    steps: &mut Steps<L>,
) -> Result<Marks, AllocError>
    requires { ValuesWithin (length doc.now.nodes) env.now }
    ensures marks { IfOk result (λ found. is_pattern (expression plan.now) ≡ true → found ≡ meaning.marks (tree_nodes doc.now) env.now (expression plan.now)) }
    ensures within { IfOk result (λ found. AreWithin (length doc.now.nodes) (node_items found)) }
    ensures cost { (name : Name) → alone (expression plan.now) ≡ Some name
        → Bounds (length (chain_of (tree_nodes doc.now) (Some (named name)))) true result steps.old steps.new }
{
    documents_are_walkable(doc);
    marks_are_found();
    plan.parts_are_sound();
    let numbers = numbers_in(alloc, doc, plan.names())?;
    let mut slots = Slots::new(alloc, plan.slots())?;
    let dynamic = DynamicContext {
        alloc,
        doc,
        plan,
        names: plan.names(),
        numbers: numbers.as_slice(),
        env,
    };
    let nodes = found(&dynamic, plan.work(), &mut slots, steps)?;
    Ok(Marks { nodes })
}
