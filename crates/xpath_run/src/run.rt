//! A plan over a document.
ghost use Rattle.std.specs.Prelude.{◌≡◌, ℕ, [], true, length, get_or, replicate, Some, None, IfOk};
ghost use Rattle.node_arena.specs.Moves.{tree_nodes};
ghost use Rattle.xpath_meaning.specs.Meaning.{mean};
ghost use Rattle.xpath_meaning.specs.Steps.{is_node};
ghost use Rattle.xpath_meaning.specs.Values.{Value as Answer, value};
ghost use Rattle.xpath_operators.specs.Nodes.{IsWithin};
ghost use Rattle.xpath_plan.specs.Claims.{kept_of};
ghost use Rattle.xpath_plan.specs.Plans.{expression, test_seen};
ghost use Rattle.xpath_plan.specs.declared.plan_node.StepTest.TheVariants as StepTest;
ghost use Rattle.xpath_parts.specs.Named.{IsEmptyAt, walk_of};
ghost use Rattle.xpath_run.specs.Runs.{Goes};
ghost use Rattle.xpath_parts.specs.Slots.{HoldIn, whole_slot};
ghost use Rattle.xpath_parts.specs.declared.named.Walk.{Walk};
ghost use Rattle.xpath_steps.specs.Variables.{ValueWithin, ValuesWithin};
ghost use Rattle.xpath_walks.specs.Walks.{Bounds, chain_of};

use crate::whole::run_whole;
use inv_base::Steps;
use node_arena::Doc;
use std::alloc::{AllocError, Global};
use std::marker::Model;
use std::sync::ledger::Ledger;
use xml_events::NameId;
use xpath_items::{Focus, Outcome};
use xpath_parts::{DynamicContext, Slots};
use xpath_plan::Plan;
use xpath_steps::Env;
use xpath_walks::numbers_in;

/// A plan over a document, in which the plan's names are looked up once, and the values of parts are kept that are the
/// same at all nodes. The plan lends its literals to the values, so it lives as long as they. Contracts see the plan, the
/// document and the slots.
pub struct Run<'p: 'a, 'd, 'a> {
    plan: &'p Plan,
    doc: &'d Doc<'a>,
    numbers: Vec<Option<NameId>>,
    slots: Slots<'a>,
}

impl<'p: 'a, 'd, 'a> Drop for Run<'p, 'd, 'a> {
    fn drop(self) {
        let Run {
            plan: _,
            doc: _,
            numbers,
            slots,
        } = self;
        drop(numbers);
        drop(slots);
    }
}

impl<'p: 'a, 'd, 'a> Model for Run<'p, 'd, 'a> {
    ghost use Rattle.xpath_run.specs.Runs.{Running, IsRunning};
    ghost use Rattle.xpath_plan.specs.contracts.plan_node.PlanNode as tree;
    ghost use Rattle.std.specs.Coded.{codes};

    ghost Value = { Running };

    ghost coded = { Prim.hlevel (codes, tree.the_row.coded) };

    ghost view = { λ run. record { plan = run.plan.now; document = run.doc.now; slots = run.slots } };

    ghost invariant = { λ run. IsRunning run.plan.now run.doc.now run.numbers.items run.slots };
}

impl<'p: 'a, 'd, 'a> Run<'p, 'd, 'a> {
    /// The plan over the document, with nothing kept yet.
    pub fn new(alloc: Global, plan: &'p Plan, doc: &'d Doc<'a>) -> Result<Self, AllocError>
        ensures { IfOk result (λ run. run ≡ record { plan = plan.now; document = doc.now; slots = replicate plan.now.slots None }) }
    {
        plan.parts_are_sound();
        let numbers = numbers_in(alloc, doc, plan.names())?;
        let slots = Slots::new(alloc, plan.slots())?;
        Ok(Run {
            plan,
            doc,
            numbers,
            slots,
        })
    }

    /// Each slot is empty or holds the value of its part in this document: what callers may know of every run. It has no
    /// code.
    pub fn slots_hold(&self)
        ensures { HoldIn self.now.document (kept_of self.now.plan) self.now.slots }
    {
        let _ = &self.slots;
    }

    /// The value of the plan's expression, or its error, at a focus and with the variables that are declared outside.
    /// Where it wants memory, none. Each move along an axis takes a step. Values of parts that are the same at all nodes
    /// are kept for later calls, and are found again without a step.
    pub fn run_plan<L: Ledger>(
        &mut self,
        alloc: Global,
        focus: &Focus<'a>,
        env: &Env<'a>,
        steps: &mut Steps<L>,
    ) -> Result<Outcome<'a>, AllocError>
        requires focus { IsWithin (length self.old.document.nodes) focus.now.item }
        requires env { ValuesWithin (length self.old.document.nodes) env.now }
        ensures value { IfOk result (λ outcome. value outcome ≡ mean (tree_nodes self.old.document) (expression self.old.plan)
            (record { focus = focus.now; bound = []; outer = env.now })) }
        ensures within { IfOk result (λ outcome. ValueWithin (length self.old.document.nodes) (value outcome)) }
        ensures slots { Goes self.old self.new }
        ensures filled { (slot : ℕ) → whole_slot self.old.plan.work ≡ Some slot → is_node focus.now.item ≡ true
            → IfOk result (λ outcome. get_or self.new.slots slot None ≡ Some (value outcome)) }
        ensures free { (slot : ℕ) (v : Answer) → whole_slot self.old.plan.work ≡ Some slot → is_node focus.now.item ≡ true
            → get_or self.old.slots slot None ≡ Some v → steps.new ≡ steps.old }
        ensures cost { (walk : Walk) → walk_of self.old.plan.work ≡ Some walk → IsEmptyAt self.old.plan.work self.old.slots → is_node focus.now.item ≡ true
            → Bounds (length (chain_of (tree_nodes self.old.document) (test_seen self.old.plan.names (StepTest.Named walk.name)))) walk.is_leading result
            steps.old steps.new }
    {
        let dynamic = DynamicContext {
            alloc,
            doc: self.doc,
            plan: self.plan,
            names: self.plan.names(),
            numbers: self.numbers.as_slice(),
            env,
        };
        run_whole(&dynamic, self.plan.work(), focus, &mut self.slots, steps)
    }
}
