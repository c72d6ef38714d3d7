ghost use Rattle.std.specs.Prelude.{◌≡◌, ◌≤◌, ◌*◌, [], IfOk};
ghost use Rattle.xpath_grammar.specs.Grammar.{Grammatical, level};
ghost use Rattle.xpath_grammar.specs.View.{view};
ghost use Rattle.xpath_types.specs.Typing.{outermost};
ghost use Rattle.xpath_meaning.specs.Resolving.{resolved};
ghost use Rattle.xpath_plan.specs.Plans.{expression};
ghost use Rattle.xpath_plan.specs.Claims.{IsSound, shown, depth_of};
ghost use Rattle.xpath_plan.specs.Shapes as spec;

use crate::compiling::{State, work_of};
use crate::marks::Marks;
use crate::names::NameTable;
use crate::plan_node::PlanNode;
use std::alloc::{AllocError, Global};
use std::marker::Model;
use xpath_meaning::{parts_depend_on_the_document_alone, positions_change_nothing};
use xpath_types::Typed;
use xpath_types::heights::Heights;

/// An expression that is ready to be evaluated: its prefixes, functions and types are looked up, its variables found and its names
/// numbered. It owns all that it holds, and outlives the text and the scope that it was made from.
///
/// It says of its parts which have one value at all nodes of a document (`Operation::Once`) and which predicates test no position
/// (`Operation::FreeStep`), and that is so.
pub struct Plan {
    names: NameTable,
    work: PlanNode,
    slots: usize,
}

impl Drop for Plan {
    fn drop(self) {
        let Plan {
            names,
            work,
            slots: _,
        } = self;
        drop(names);
        drop(work);
    }
}

impl Model for Plan {
    ghost use Rattle.xpath_plan.specs.Plans.{Planned};
    ghost use Rattle.xpath_plan.specs.contracts.plan_node.PlanNode as tree;
    ghost use Rattle.std.specs.Coded.{codes};

    ghost Value = { Planned };

    ghost coded = { Prim.hlevel (codes, tree.the_row.coded) };

    ghost view = { λ plan. record { names = plan.names; work = plan.work; slots = plan.slots } };

    ghost use Rattle.xpath_plan.specs.Claims as claims;

    ghost invariant = { λ plan. claims.IsSound (record { names = plan.names; work = plan.work; slots = plan.slots }) };
}

impl Plan {
    /// The expanded names that the plan's steps test for, by their numbers.
    pub fn names(&self) -> &NameTable
        ensures { result.now ≡ self.now.names }
    {
        &self.names
    }

    /// The tree of the plan.
    pub fn work(&self) -> &PlanNode
        ensures { result.now ≡ self.now.work }
    {
        &self.work
    }

    /// How many parts of the plan have a slot. The slots have the numbers below.
    pub fn slots(&self) -> usize
        ensures { result ≡ self.now.slots }
    {
        self.slots
    }

    /// What the plan says of its parts is so: what callers may know of every plan. It has no code.
    pub fn parts_are_sound(&self)
        ensures { IsSound self.now }
    {
        let _ = &self.slots;
    }
}

/// The plan of a typed expression: each part as it is to be run, in a tree that is at most twice as deep as the expression. Takes time in
/// proportion to the expression.
pub fn compile(alloc: Global, typed: &Typed<'_>) -> Result<Plan, AllocError>
    requires { Grammatical (view typed.now.expression) }
    ensures expression { IfOk result (λ plan. expression plan ≡ resolved typed.now.declared [] (view typed.now.expression)) }
    ensures shapes { IfOk result (λ plan. shown plan ≡ spec.shapes (outermost typed.now.declared) 0 spec.apart (view typed.now.expression)) }
    ensures slots { IfOk result (λ plan. plan.slots ≡ spec.count_kept (spec.shapes (outermost typed.now.declared) 0 spec.apart (view typed.now.expression))) }
    ensures depth { IfOk result (λ plan. depth_of plan ≤ 2 * level (view typed.now.expression)) }
{
    typed.parts_are_stated();
    parts_depend_on_the_document_alone();
    positions_change_nothing();
    let mut state = State {
        bound: Heights::new(alloc),
        names: NameTable::new(alloc),
    };
    let mut marks = Marks {
        before: 0,
        slots: 0,
    };
    let work = work_of(alloc, typed, &mut state, &mut marks, typed.expr())?;
    let State { bound: _, names } = state;
    Ok(Plan {
        names,
        work,
        slots: marks.slots,
    })
}
