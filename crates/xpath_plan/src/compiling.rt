//! The works of expressions with parts. A chain's operands, a path's steps, predicates and bindings stay lists, so nothing
//! recurses once for each of them.
ghost use Rattle.std.specs.Prelude.{◌≡◌, ◌+◌, ◌++◌, ◌∷◌, [], List, IfOk, OnOk, length, take, drop};
ghost use Rattle.inv_base.specs.Tree.{Name};
ghost use Rattle.xpath_grammar.specs.View.{view};
ghost use Rattle.xpath_meaning.specs.Resolving as meaning;
ghost use Rattle.xpath_plan.specs.Kinds as kinds;
ghost use Rattle.xpath_plan.specs.Claims.{known, known_alone};
ghost use Rattle.xpath_plan.specs.Walking.{size, walked};

use crate::forms::{kind_of, link_of};
use crate::leaves::simple_of;
use crate::marks::{Marks, keeps_next, kept_work, still_free};
use crate::names::NameTable;
use crate::plan_node::{PlanNode, Separator};
use std::alloc::{AllocError, Global};
use xpath_grammar::expr::{Expr, Label, Leaf};
use xpath_grammar::many::Many;
use xpath_types::heights::Heights;
use xpath_types::{Scope, Typed, written};

/// What is kept along an expression.
#[derive(Drop)]
pub(crate) struct State {
    /// The variables that are bound around the part.
    pub bound: Heights,
    /// The names so far.
    pub names: NameTable,
}

/// Binds the variable of the label, where it has one.
fn bind(alloc: Global, bound: &mut Heights, label: &Label) -> Result<(), AllocError>
    ensures { OnOk result (bound.new ≡ meaning.names_behind label.now bound.old) }
{
    match label {
        Label::Binding(_, name) => bound.push(written(alloc, name)?),
        _ => Ok(()),
    }
}

/// Puts the part's work behind the others, and binds its variable, where it has one.
fn put(
    alloc: Global,
    part: &(Label, Expr),
    work: PlanNode,
    works: &mut Many<(Separator, PlanNode)>,
    bound: &mut Heights,
) -> Result<(), AllocError>
    ensures put { OnOk result (works.new ≡ works.old ++ (kinds.link_of part.now.0, work) ∷ []) }
    ensures bound { OnOk result (bound.new ≡ meaning.names_behind part.now.0 bound.old) }
{
    works.push((link_of(&part.0), work))?;
    bind(alloc, bound, &part.0)?;
    Ok(())
}

/// The work of an expression without parts.
fn leaf_work(
    alloc: Global,
    scope: &Scope,
    state: &mut State,
    leaf: &Leaf,
) -> Result<PlanNode, AllocError>
    ensures work { IfOk result (λ work. (later : List Name) →
        known (state.new.names ++ later) work ≡ known_alone (meaning.leaf_of scope.now state.old.bound leaf.now)) }
    ensures grown { OnOk result (take (length state.old.names) state.new.names ≡ state.old.names) }
    ensures kept { OnOk result (state.new.bound ≡ state.old.bound) }
{
    Ok(PlanNode::Simple(simple_of(alloc, scope, state, leaf)?))
}

/// The work of the expression, inside the variables and with the names and the marks so far.
pub(crate) fn work_of(
    alloc: Global,
    typed: &Typed<'_>,
    state: &mut State,
    marks: &mut Marks,
    x: &Expr,
) -> Result<PlanNode, AllocError>
    ensures work { IfOk result (λ work. (later : List Name) → known (state.new.names ++ later) work
        ≡ walked typed.now.declared state.old.bound (drop marks.old.before typed.now.parts) marks.old.slots (view x.now)) }
    ensures grown { OnOk result (take (length state.old.names) state.new.names ≡ state.old.names) }
    ensures kept { OnOk result (state.new.bound ≡ state.old.bound) }
    ensures passed { OnOk result (marks.new.before ≡ marks.old.before + size (view x.now)) }
    ensures slots { OnOk result (marks.new.slots ≡ marks.old.slots
        + length (walked typed.now.declared state.old.bound (drop marks.old.before typed.now.parts) marks.old.slots (view x.now)).kept) }
{
    let keeps = keeps_next(typed, marks, x)?;
    let height = state.bound.len();
    match x {
        Expr::Leaf(leaf) => {
            let work = leaf_work(alloc, typed.scope(), state, leaf)?;
            kept_work(alloc, keeps, height, marks, work)
        }
        Expr::Node(form, parts) => {
            let parts = parts.as_slice();
            let mut works = Many::new(alloc);
            let mut free = true;
            'parts: for part in parts {
                free = still_free(free, typed, marks.before, &part.0);
                let work = work_of(alloc, typed, state, marks, &part.1)?;
                put(alloc, part, work, &mut works, &mut state.bound)?;
            }
            state.bound.truncate(height);
            let kind = kind_of(alloc, typed.scope(), form, parts, free)?;
            kept_work(alloc, keeps, height, marks, PlanNode::Node(kind, works))
        }
    }
}
