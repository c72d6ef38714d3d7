//! The walk over an expression that judges it.
ghost use Rattle.std.specs.Prelude.{◌≡◌, ◌≤◌, ◌<◌, ◌+◌, ◌==◌, map, length, IfOk, OnOk};
ghost use Rattle.xpath_grammar.specs.Grammar.{label_tokens};
ghost use Rattle.xpath_grammar.specs.View.{view, viewed};
ghost use Rattle.xpath_types.specs.Judging.{is_sure_error};
ghost use Rattle.xpath_types.specs.Walking as spec;

use crate::facts::Facts;
use crate::forms::{
    begins_at_root, closing_length, focus_behind, focus_inside, is_sure_error, kinds_concluded,
    label_length, refuse_operand, with_part,
};
use crate::kinds::{Kinds, NO_KINDS};
use crate::leaves::{judge_leaf, leaf_length};
use crate::part::Part;
use crate::patterns::refuse_own;
use crate::places::further;
use crate::refusals::Refusal;
use crate::scope::Scope;
use crate::uses::Uses;
use crate::variables::{Variables, bind};
use std::alloc::{AllocError, Global};
use xpath_grammar::expr::{Expr, Form, Label, Leaf};

/// What is kept along the walk.
#[derive(Drop)]
pub(crate) struct State {
    /// The variables that are bound around the part.
    pub variables: Variables,
    /// The parts so far, in their order.
    pub parts: Vec<Part>,
    /// The first refusal so far.
    pub first: Option<Refusal>,
}

/// What is known behind an expression.
#[derive(Clone, Copy)]
pub(crate) struct Walked {
    pub facts: Facts,
    /// The number of the token behind it.
    pub end: u32,
}

/// Stands for a part until the parts in it are known.
const UNKNOWN: Part = Part {
    kinds: NO_KINDS,
    uses_focus: false,
    uses_position: false,
    depends_on_document_alone: false,
};

/// The number of the first token of the part behind the label.
fn start_of(so_far: Walked, label: &Label) -> Result<u32, AllocError>
    ensures { IfOk result (λ start. start ≡ so_far.end + length (label_tokens label.now)) }
{
    further(so_far.end, label_length(label))
}

/// Whether the part at the place is sure to be an error there, if it has these kinds.
fn is_sure(form: &Form, parts: &[(Label, Expr)], place: usize, kinds: Kinds) -> bool
    requires { place < length parts.now }
    ensures { result ≡ is_sure_error form.now (place + 1 == length parts.now) kinds }
{
    is_sure_error(form, place + 1 == parts.len(), kinds)
}

/// What is known behind the part, by what was known before it.
fn joined(
    form: &Form,
    label: &Label,
    first: bool,
    sure: bool,
    so_far: Walked,
    part: Walked,
) -> Walked
    ensures { result ≡ record { facts = spec.with_part form.now label.now first sure so_far.facts part.facts; end = part.end } }
{
    Walked {
        facts: with_part(form, label, first, sure, so_far.facts, part.facts),
        end: part.end,
    }
}

/// Judges the expression, whose first token has the number, at a focus of these kinds.
pub(crate) fn walk(
    alloc: Global,
    scope: &Scope,
    state: &mut State,
    focus: Kinds,
    token: u32,
    x: &Expr,
) -> Result<Walked, AllocError>
    ensures walked { IfOk result (λ walked. walked ≡ (spec.walked scope.now focus state.old.variables token (spec.seen state.old) (view x.now)).0) }
    ensures seen { OnOk result (spec.seen state.new ≡ (spec.walked scope.now focus state.old.variables token (spec.seen state.old) (view x.now)).1) }
    ensures kept { OnOk result (state.new.variables ≡ state.old.variables) }
    ensures longer { OnOk result (length state.old.parts.items ≤ length state.new.parts.items) }
{
    match x {
        Expr::Leaf(leaf) => walk_leaf(alloc, scope, state, focus, token, leaf),
        Expr::Node(form, parts) => {
            let parts = parts.as_slice();
            let index = state.parts.len();
            let height = state.variables.len();
            let mut so_far = begin(alloc, scope, state, token, form, parts)?;
            let mut inner = focus;
            'parts: for (i, part) in parts.iter().enumerate() {
                let start = start_of(so_far, &part.0)?;
                let focus = focus_inside(form, &part.0, inner);
                let walked = walk(alloc, scope, state, focus, start, &part.1)?;
                inner = focus_behind(form, &part.0, walked.facts.kinds, inner);
                let sure = is_sure(form, parts, i, walked.facts.kinds);
                refuse_operand(&mut state.first, start, sure);
                so_far = joined(form, &part.0, i == 0, sure, so_far, walked);
                bind(alloc, &mut state.variables, &part.0, walked.facts.kinds)?;
            }
            state.variables.truncate(height);
            end(scope, state, form, parts, focus, index, so_far)
        }
    }
}

fn walk_leaf(
    alloc: Global,
    scope: &Scope,
    state: &mut State,
    focus: Kinds,
    token: u32,
    leaf: &Leaf,
) -> Result<Walked, AllocError>
    ensures walked { IfOk result (λ walked. walked ≡ (spec.leaf_walked scope.now focus state.old.variables token (spec.seen state.old) leaf.now).0) }
    ensures seen { OnOk result (spec.seen state.new ≡ (spec.leaf_walked scope.now focus state.old.variables token (spec.seen state.old) leaf.now).1) }
    ensures kept { OnOk result (state.new.variables ≡ state.old.variables) }
    ensures longer { OnOk result (length state.old.parts.items ≤ length state.new.parts.items) }
{
    let facts = judge_leaf(
        alloc,
        scope,
        &state.variables,
        &mut state.first,
        focus,
        token,
        leaf,
    )?;
    state.parts.push(facts.part(focus, state.variables.len()))?;
    let end = further(token, leaf_length(leaf))?;
    Ok(Walked { facts, end })
}

/// Puts the part in its place, and refuses what is wrong with the expression itself.
fn begin(
    alloc: Global,
    scope: &Scope,
    state: &mut State,
    token: u32,
    form: &Form,
    parts: &[(Label, Expr)],
) -> Result<Walked, AllocError>
    ensures walked { IfOk result (λ walked. walked ≡ spec.node_begun scope.now token form.now (viewed parts.now)) }
    ensures seen { OnOk result (spec.seen state.new ≡ spec.seen_begun scope.now token form.now (viewed parts.now) (spec.seen state.old)) }
    ensures kept { OnOk result (state.new.variables ≡ state.old.variables) }
{
    state.parts.push(UNKNOWN)?;
    let refused = refuse_own(alloc, scope, &mut state.first, token, form, parts)?;
    let facts = Facts {
        kinds: NO_KINDS,
        refused,
        uses: Uses {
            position: false,
            root: begins_at_root(form, parts),
            item: false,
        },
        lowest: None,
    };
    Ok(Walked { facts, end: token })
}

/// States the part with the index, now that the parts in it are known.
fn end(
    scope: &Scope,
    state: &mut State,
    form: &Form,
    parts: &[(Label, Expr)],
    focus: Kinds,
    index: usize,
    inner: Walked,
) -> Result<Walked, AllocError>
    requires { index < length state.old.parts.items }
    ensures walked { IfOk result (λ walked. walked ≡ (spec.node_ended scope.now focus (length state.old.variables) index form.now
        (map (λ part. part.0) parts.now) (inner, spec.seen state.old)).0) }
    ensures seen { OnOk result (spec.seen state.new ≡ (spec.node_ended scope.now focus (length state.old.variables) index form.now
        (map (λ part. part.0) parts.now) (inner, spec.seen state.old)).1) }
    ensures kept { OnOk result (state.new.variables ≡ state.old.variables) }
    ensures long { OnOk result (length state.new.parts.items ≡ length state.old.parts.items) }
{
    let facts = Facts::of(
        kinds_concluded(scope, form, parts, inner.facts.kinds),
        inner.facts.refused,
        inner.facts.uses,
        inner.facts.lowest,
    );
    state.parts[index] = facts.part(focus, state.variables.len());
    let end = further(inner.end, closing_length(form))?;
    Ok(Walked { facts, end })
}
