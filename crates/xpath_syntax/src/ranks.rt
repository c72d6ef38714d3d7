ghost use Rattle.std.specs.Prelude.{◌≡◌};
ghost use Rattle.xpath_grammar.specs.Grammar as grammar;
ghost use Rattle.xpath_grammar.specs.Machine as machine;

use xpath_grammar::expr::{Form, Label};
use xpath_grammar::operators::{Binder, CastWord, Production};
use xpath_tokens::token::{Name, Operator};

/// How tightly a production binds.
pub fn rank_of(production: Production) -> u32
    ensures { result ≡ grammar.rank_of production }
{
    match production {
        Production::Sequence => 1,
        Production::Or => 3,
        Production::And => 4,
        Production::Comparison => 5,
        Production::Range => 6,
        Production::Sum => 7,
        Production::Product => 8,
        Production::Union => 9,
        Production::Intersection => 10,
        Production::Path => 14,
    }
}

pub fn rank_of_cast(word: CastWord) -> u32
    ensures { result ≡ grammar.rank_of_cast word }
{
    match word {
        CastWord::Castable => 11,
        CastWord::Cast => 12,
    }
}

pub fn production_of(operator: Operator) -> Option<Production>
    ensures { result ≡ grammar.production_of operator }
{
    match operator {
        Operator::Slash | Operator::DoubleSlash => Some(Production::Path),
        Operator::Bar | Operator::Union => Some(Production::Union),
        Operator::Plus | Operator::Minus => Some(Production::Sum),
        Operator::Times | Operator::Div | Operator::Idiv | Operator::Mod => Some(
            Production::Product,
        ),
        Operator::Equal
        | Operator::NotEqual
        | Operator::Less
        | Operator::LessOrEqual
        | Operator::Greater
        | Operator::GreaterOrEqual => Some(Production::Comparison),
        Operator::Eq | Operator::Ne | Operator::Lt | Operator::Le | Operator::Gt | Operator::Ge =>
            Some(Production::Comparison),
        Operator::And => Some(Production::And),
        Operator::Or => Some(Production::Or),
        Operator::To => Some(Production::Range),
        Operator::Intersect | Operator::Except => Some(Production::Intersection),
        _ => None,
    }
}

pub fn production_of_label(label: &Label) -> Option<Production>
    ensures { result ≡ grammar.production_of_label label.now }
{
    match label {
        Label::Link(operator) => production_of(*operator),
        Label::Comma => Some(Production::Sequence),
        _ => None,
    }
}

fn rank_of_form(form: &Form) -> u32
    ensures { result ≡ grammar.rank_of_form form.now }
{
    match form {
        Form::Chain(production) => rank_of(*production),
        Form::Bound(_) | Form::Conditional => 2,
        Form::Cast(word, _, _) => rank_of_cast(*word),
        Form::Signs => 13,
        Form::Filter => 15,
        Form::Parentheses | Form::Call => 16,
    }
}

/// The least rank of a part behind the label.
pub fn place(form: &Form, label: &Label) -> u32
    ensures { result ≡ grammar.place form.now label.now }
{
    match form {
        Form::Chain(production) => rank_of(*production) + 1,
        Form::Bound(_) => 2,
        Form::Conditional => {
            if matches!(label, Label::Condition) {
                1
            } else {
                2
            }
        }
        Form::Cast(word, _, _) => rank_of_cast(*word) + 1,
        Form::Signs => 14,
        Form::Filter => { if matches!(label, Label::First) { 16 } else { 1 } }
        Form::Parentheses => 1,
        Form::Call => 2,
    }
}

fn ends(form: &Form, label: &Label) -> bool
    ensures { result ≡ grammar.ends form.now label.now }
{
    match form {
        Form::Chain(_) | Form::Filter => !matches!(label, Label::First),
        Form::Bound(_) | Form::Conditional => matches!(label, Label::Link(_)),
        _ => true,
    }
}

fn is_open_ended(form: &Form) -> bool
    ensures { result ≡ machine.is_open_ended form.now }
{
    match form {
        Form::Chain(_) | Form::Bound(_) | Form::Conditional | Form::Signs => true,
        _ => false,
    }
}

/// The form ends behind the label's part where an operator of the rank follows.
pub fn is_closed(rank: u32, form: &Form, label: &Label) -> bool
    ensures { result ≡ machine.is_closed rank form.now label.now }
{
    is_open_ended(form) && ends(form, label) && rank < rank_of_form(form)
}

fn is_single(production: Production) -> bool
    ensures { result ≡ grammar.is_single production }
{
    match production {
        Production::Comparison | Production::Range => true,
        _ => false,
    }
}

fn joins(production: Production, label: &Label) -> bool
    ensures { result ≡ grammar.joins production label.now }
{
    match production_of_label(label) {
        None => false,
        Some(other) => rank_of(production) == rank_of(other),
    }
}

fn is_body_word(binder: Binder, operator: Operator) -> bool
    ensures { result ≡ grammar.is_body_word binder operator }
{
    match (binder, operator) {
        (Binder::For, Operator::Return) => true,
        (Binder::Some, Operator::Satisfies) => true,
        (Binder::Every, Operator::Satisfies) => true,
        _ => false,
    }
}

/// The name has no `*`.
pub fn is_full(name: &Name) -> bool
    ensures { result ≡ grammar.is_full name.now }
{
    match name {
        Name::Plain(_) | Name::Prefixed(_, _) => true,
        _ => false,
    }
}

fn goes_on_bound(binder: Binder, before: &Label, label: &Label) -> bool
    ensures { result ≡ grammar.goes_on_bound binder before.now label.now }
{
    match before {
        Label::Binding(_, _) => match label {
            Label::Binding(None, name) => is_full(name),
            Label::Link(operator) => is_body_word(binder, *operator),
            _ => false,
        },
        _ => false,
    }
}

fn goes_on_conditional(before: &Label, label: &Label) -> bool
    ensures { result ≡ grammar.goes_on_conditional before.now label.now }
{
    match before {
        Label::Condition => matches!(label, Label::Then),
        Label::Then => matches!(label, Label::Link(Operator::Else)),
        _ => false,
    }
}

fn goes_on_filter(before: &Label, label: &Label) -> bool
    ensures { result ≡ grammar.goes_on_filter before.now label.now }
{
    match before {
        Label::First => matches!(label, Label::Predicate),
        Label::Predicate | Label::Again => matches!(label, Label::Again),
        _ => false,
    }
}

/// The label may lead to a part behind one that another led to.
pub fn goes_on(form: &Form, before: &Label, label: &Label) -> bool
    ensures { result ≡ grammar.goes_on form.now before.now label.now }
{
    match form {
        Form::Chain(production) => joins(*production, label)
            && (!is_single(*production) || matches!(before, Label::First)),
        Form::Bound(binder) => goes_on_bound(*binder, before, label),
        Form::Conditional => goes_on_conditional(before, label),
        Form::Filter => goes_on_filter(before, label),
        Form::Call => matches!(label, Label::Comma),
        _ => false,
    }
}
