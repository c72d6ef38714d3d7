//! Which parts are kept and which predicates test no position, by what the typing states of each part.
ghost use Rattle.std.specs.Prelude.{◌≡◌, ◌+◌, ◌&&◌, true, List, IfOk, OnOk, drop};
ghost use Rattle.inv_base.specs.Tree.{Name};
ghost use Rattle.xpath_grammar.specs.Grammar.{is_first};
ghost use Rattle.xpath_grammar.specs.View.{view};
ghost use Rattle.xpath_plan.specs.Claims.{known};
ghost use Rattle.xpath_plan.specs.Shapes as shapes;
ghost use Rattle.xpath_plan.specs.Walking.{is_kept_by, is_free_by, kept_if};

use crate::plan_node::{Operation, PlanNode, Separator};
use std::alloc::{AllocError, Global};
use xpath_grammar::expr::{Expr, Label, Leaf};
use xpath_grammar::many::Many;
use xpath_types::{Part, Typed};

/// How far the parts of an expression are gone over.
#[derive(Drop)]
pub(crate) struct Marks {
    /// How many parts stand before the next one.
    pub before: usize,
    /// How many parts are kept so far.
    pub slots: usize,
}

fn is_literal(x: &Expr) -> bool
    ensures { result ≡ shapes.is_literal (view x.now) }
{
    match x {
        Expr::Leaf(Leaf::Literal(_)) => true,
        Expr::Leaf(Leaf::Number(_)) => true,
        _ => false,
    }
}

/// Whether the part with the number, which is this expression, is kept.
fn is_kept(typed: &Typed<'_>, number: usize, x: &Expr) -> bool
    ensures { result ≡ is_kept_by (drop number typed.now.parts) (view x.now) }
{
    match typed.part(number) {
        Some(part) => part.depends_on_document_alone & !is_literal(x),
        None => false,
    }
}

/// Whether the next part is kept. Passes it.
pub(crate) fn keeps_next(typed: &Typed<'_>, marks: &mut Marks, x: &Expr) -> Result<bool, AllocError>
    ensures keeps { IfOk result (λ keeps. keeps ≡ is_kept_by (drop marks.old.before typed.now.parts) (view x.now)) }
    ensures passed { OnOk result (marks.new.before ≡ marks.old.before + 1) }
    ensures slots { OnOk result (marks.new.slots ≡ marks.old.slots) }
{
    let keeps = is_kept(typed, marks.before, x);
    match marks.before.checked_add(1) {
        Some(next) => {
            marks.before = next;
            Ok(keeps)
        }
        None => Err(AllocError),
    }
}

fn is_first(label: &Label) -> bool
    ensures { result ≡ is_first label.now }
{
    match label {
        Label::First => true,
        _ => false,
    }
}

fn is_free_part(label: &Label, part: &Part) -> bool
    ensures { result ≡ shapes.is_free label.now part.now }
{
    is_first(label) | (!part.may_be_number() & !part.uses_position)
}

/// Whether no predicate so far tests a position, and the part with the number isn't one that does.
pub(crate) fn still_free(free: bool, typed: &Typed<'_>, number: usize, label: &Label) -> bool
    ensures { result ≡ (free && is_free_by (drop number typed.now.parts) label.now) }
{
    match typed.part(number) {
        Some(part) => free & is_free_part(label, part),
        None => false,
    }
}

/// The work in the next slot.
fn in_slot(
    alloc: Global,
    height: usize,
    marks: &mut Marks,
    work: PlanNode,
) -> Result<PlanNode, AllocError>
    ensures work { IfOk result (λ kept. (names : List Name) → known names kept ≡ kept_if true marks.old.slots height (known names work)) }
    ensures before { marks.new.before ≡ marks.old.before }
    ensures slots { OnOk result (marks.new.slots ≡ marks.old.slots + 1) }
{
    let slot = marks.slots;
    let mut parts = Many::new(alloc);
    parts.push((Separator::Other, work))?;
    match slot.checked_add(1) {
        Some(next) => {
            marks.slots = next;
            Ok(PlanNode::Node(Operation::Once(slot, height), parts))
        }
        None => {
            drop(parts);
            Err(AllocError)
        }
    }
}

/// The work, in the next slot where it is kept.
pub(crate) fn kept_work(
    alloc: Global,
    keeps: bool,
    height: usize,
    marks: &mut Marks,
    work: PlanNode,
) -> Result<PlanNode, AllocError>
    ensures work { IfOk result (λ kept. (names : List Name) → known names kept ≡ kept_if keeps marks.old.slots height (known names work)) }
    ensures before { marks.new.before ≡ marks.old.before }
    ensures slots { OnOk result (marks.new.slots ≡ marks.old.slots + shapes.one_if keeps) }
{
    if keeps {
        in_slot(alloc, height, marks, work)
    } else {
        Ok(work)
    }
}
