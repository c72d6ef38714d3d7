//! Expressions with parts: what their forms and what leads to their parts make of the parts.
ghost use Rattle.std.specs.Prelude.{◌≡◌, [], ◌∷◌, not, map, length};
ghost use Rattle.xpath_grammar.specs.Grammar.{label_tokens, closing};
ghost use Rattle.xpath_types.specs.Refusals.{first_of};
ghost use Rattle.xpath_types.specs.Judging as judging;
ghost use Rattle.xpath_types.specs.Parts as focus_uses;
ghost use Rattle.xpath_types.specs.Walking as spec;

use crate::facts::{Facts, lower};
use crate::fault::TypeKind;
use crate::functions::called_kinds;
use crate::kinds::{ALL_KINDS, BOOLEANS, Kinds, NO_KINDS, NODES, NUMBERS};
use crate::refusals::{Refusal, refuse_unless};
use crate::resolving::{function_called, refuse_call, refuse_prefix, refuse_type, type_named};
use crate::scope::Scope;
use xpath_grammar::expr::{Expr, Form, Label};
use xpath_grammar::operators::{Binder, CastWord, Production};

/// How many tokens lead to the part.
pub(crate) fn label_length(label: &Label) -> usize
    ensures { result ≡ length (label_tokens label.now) }
{
    match label {
        Label::First => 0,
        Label::Link(_) | Label::Comma | Label::Predicate | Label::Opened => 1,
        Label::Condition | Label::Then | Label::Again | Label::Calling(_) => 2,
        Label::Binding(_, _) => 4,
        Label::Signed(operators) => operators.len(),
    }
}

/// How many tokens stand behind the last part.
pub(crate) fn closing_length(form: &Form) -> usize
    ensures { result ≡ length (closing form.now) }
{
    match form {
        Form::Filter | Form::Parentheses | Form::Call => 1,
        Form::Cast(_, _, optional) => { if *optional { 4 } else { 3 } }
        _ => 0,
    }
}

/// The kinds of the focus of a part.
pub(crate) fn focus_inside(form: &Form, label: &Label, focus: Kinds) -> Kinds
    ensures { result ≡ judging.focus_inside form.now label.now focus }
{
    match (form, label) {
        (Form::Chain(Production::Path), Label::Link(_)) => NODES,
        _ => focus,
    }
}

/// The kinds of the focus behind a part of these kinds.
pub(crate) fn focus_behind(form: &Form, label: &Label, kinds: Kinds, focus: Kinds) -> Kinds
    ensures { result ≡ judging.focus_behind form.now label.now kinds focus }
{
    match (form, label) {
        (Form::Filter, Label::First) => kinds,
        _ => focus,
    }
}

/// Whether the part is evaluated at the focus of the whole.
fn has_outer_focus(form: &Form, label: &Label) -> bool
    ensures { result ≡ focus_uses.has_outer_focus form.now label.now }
{
    match form {
        Form::Chain(Production::Path) | Form::Filter => match label {
            Label::First => true,
            _ => false,
        },
        _ => true,
    }
}

/// The kinds so far, with those of one part more.
fn gathered(form: &Form, label: &Label, first: bool, so_far: Kinds, kinds: Kinds) -> Kinds
    ensures { result ≡ spec.gathered form.now label.now first so_far kinds }
{
    match form {
        Form::Chain(Production::Sequence) => so_far.united(kinds),
        Form::Chain(Production::Path) | Form::Bound(Binder::For) => kinds,
        Form::Conditional => match label {
            Label::Condition => so_far,
            _ => so_far.united(kinds),
        },
        Form::Filter | Form::Parentheses | Form::Call => { if first { kinds } else { so_far } }
        _ => so_far,
    }
}

/// Whether a part of these kinds is sure to be an error there, by whether it is the last part.
pub(crate) fn is_sure_error(form: &Form, last: bool, kinds: Kinds) -> bool
    ensures { result ≡ judging.is_sure_error form.now last kinds }
{
    match form {
        Form::Chain(Production::Path) => !last & kinds.has_no_node(),
        Form::Chain(Production::Union) | Form::Chain(Production::Intersection) => {
            kinds.has_no_node()
        }
        Form::Chain(Production::Range)
        | Form::Chain(Production::Sum)
        | Form::Chain(Production::Product)
        | Form::Signs => kinds.has_no_number(),
        _ => false,
    }
}

/// The facts so far, with those of one part more.
pub(crate) fn with_part(
    form: &Form,
    label: &Label,
    first: bool,
    sure: bool,
    so_far: Facts,
    part: Facts,
) -> Facts
    ensures { result ≡ spec.with_part form.now label.now first sure so_far part }
{
    let uses = if has_outer_focus(form, label) {
        so_far.uses.joined(part.uses)
    } else {
        so_far.uses
    };
    Facts {
        kinds: gathered(form, label, first, so_far.kinds, part.kinds),
        refused: so_far.refused | (part.refused | sure),
        uses,
        lowest: lower(so_far.lowest, part.lowest),
    }
}

/// Whether a path begins with `/` or `//`.
pub(crate) fn begins_at_root(form: &Form, parts: &[(Label, Expr)]) -> bool
    ensures { result ≡ focus_uses.begins_at_root form.now (map (λ part. part.0) parts.now) }
{
    match (form, parts) {
        (Form::Chain(Production::Path), [(Label::Link(_), _), ..]) => true,
        _ => false,
    }
}

/// Refuses names that the expression itself has, and tells whether it did.
pub(crate) fn refuse_names(
    scope: &Scope,
    first: &mut Option<Refusal>,
    token: u32,
    form: &Form,
    parts: &[(Label, Expr)],
) -> bool
    ensures first { first.new ≡ first_of first.old (judging.standing_at token (judging.form_refusals scope.now form.now (map (λ part. part.0) parts.now))) }
    ensures told { result ≡ not (judging.is_empty (judging.form_refusals scope.now form.now (map (λ part. part.0) parts.now))) }
{
    match form {
        Form::Bound(_) => refuse_bindings(scope, first, token, parts),
        Form::Cast(_, name, _) => refuse_type(first, token, type_named(scope, name)),
        Form::Call => refuse_function(scope, first, token, parts),
        _ => false,
    }
}

fn refuse_bindings(
    scope: &Scope,
    first: &mut Option<Refusal>,
    token: u32,
    parts: &[(Label, Expr)],
) -> bool
    ensures first { first.new ≡ first_of first.old (judging.standing_at token (judging.bindings_refusals scope.now (map (λ part. part.0) parts.now))) }
    ensures told { result ≡ not (judging.is_empty (judging.bindings_refusals scope.now (map (λ part. part.0) parts.now))) }
{
    let mut refused = false;
    'parts: for part in parts {
        let told = refuse_binding(scope, first, token, &part.0);
        refused = refused | told;
    }
    refused
}

fn refuse_binding(scope: &Scope, first: &mut Option<Refusal>, token: u32, label: &Label) -> bool
    ensures first { first.new ≡ first_of first.old (judging.standing_at token (judging.binding_refusals scope.now label.now)) }
    ensures told { result ≡ not (judging.is_empty (judging.binding_refusals scope.now label.now)) }
{
    match label {
        Label::Binding(_, name) => refuse_prefix(first, token, scope, name),
        _ => false,
    }
}

fn refuse_function(
    scope: &Scope,
    first: &mut Option<Refusal>,
    token: u32,
    parts: &[(Label, Expr)],
) -> bool
    ensures first { first.new ≡ first_of first.old (judging.standing_at token (judging.argument_refusals scope.now (map (λ part. part.0) parts.now))) }
    ensures told { result ≡ not (judging.is_empty (judging.argument_refusals scope.now (map (λ part. part.0) parts.now))) }
{
    match parts {
        [(Label::Calling(name), _), ..] => {
            refuse_call(first, token, function_called(scope, name), parts.len())
        }
        _ => false,
    }
}

/// Refuses a part that is sure to be an error where it stands.
pub(crate) fn refuse_operand(first: &mut Option<Refusal>, token: u32, sure: bool)
    ensures { first.new ≡ first_of first.old (judging.sure_refusals token sure) }
{
    let _ = refuse_unless(first, token, !sure, TypeKind::SureTypeError);
}

/// The kinds of an expression, by those gathered of its parts.
pub(crate) fn kinds_concluded(
    scope: &Scope,
    form: &Form,
    parts: &[(Label, Expr)],
    kinds: Kinds,
) -> Kinds
    ensures { result ≡ spec.kinds_concluded scope.now form.now (map (λ part. part.0) parts.now) kinds }
{
    match form {
        Form::Chain(production) => chain_concluded(*production, kinds),
        Form::Bound(Binder::For) => kinds,
        Form::Bound(Binder::Some) | Form::Bound(Binder::Every) => BOOLEANS,
        Form::Cast(CastWord::Cast, name, _) => called_kinds(type_named(scope, name), NO_KINDS),
        Form::Cast(CastWord::Castable, _, _) => BOOLEANS,
        Form::Signs => NUMBERS,
        Form::Conditional | Form::Filter | Form::Parentheses => kinds,
        Form::Call => called_in(scope, parts, kinds),
    }
}

fn chain_concluded(production: Production, kinds: Kinds) -> Kinds
    ensures { result ≡ spec.chain_concluded production kinds }
{
    match production {
        Production::Or | Production::And | Production::Comparison => BOOLEANS,
        Production::Range | Production::Sum | Production::Product => NUMBERS,
        Production::Union | Production::Intersection => NODES,
        Production::Sequence | Production::Path => kinds,
    }
}

fn called_in(scope: &Scope, parts: &[(Label, Expr)], argument: Kinds) -> Kinds
    ensures { result ≡ spec.called_in scope.now (map (λ part. part.0) parts.now) argument }
{
    match parts {
        [(Label::Calling(name), _), ..] => called_kinds(function_called(scope, name), argument),
        _ => ALL_KINDS,
    }
}
