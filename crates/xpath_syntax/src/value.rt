ghost use Rattle.std.specs.Prelude.{◌≡◌};
ghost use Rattle.xpath_grammar.specs.Patterns as pattern;
ghost use Rattle.xpath_syntax.specs.Values as spec;

use std::alloc::Global;
use xpath_grammar::expr::{Expr, Form, Label, Leaf};
use xpath_grammar::many::Many;
use xpath_grammar::operators::Production;
use xpath_grammar::pattern::PatternKind;
use xpath_grammar::step::{Axis, AxisForm};
use xpath_tokens::token::{Operator, SyntaxFault};

/// The most levels that an expression may have.
const MOST_LEVELS: u32 = 256;

/// An expression and how many levels it has, at most 256.
#[derive(Drop)]
pub struct Kept {
    pub expression: Expr,
    pub level: u32,
}

/// An expression that was read. One with too many levels was let go.
#[derive(Drop)]
pub struct Value {
    pub kept: Option<Kept>,
    pub kind: PatternKind,
}

#[derive(Drop)]
pub struct KeptParts {
    pub parts: Many<(Label, Expr)>,
    /// The most levels of a part.
    pub deepest: u32,
}

/// Parts that were read of an expression, which were let go where one has too many levels.
#[derive(Drop)]
pub struct Parts {
    pub kept: Option<KeptParts>,
    /// What the first part is as a pattern.
    pub first: Option<PatternKind>,
    /// All parts are steps of a pattern.
    pub steps: bool,
    /// All parts are paths of a pattern, with `|` between them.
    pub paths: bool,
}

fn is_pattern_axis(form: AxisForm) -> bool
    ensures { result ≡ pattern.is_pattern_axis form }
{
    match form {
        AxisForm::Unwritten => true,
        AxisForm::At => true,
        AxisForm::Written(Axis::Child) => true,
        AxisForm::Written(Axis::Attribute) => true,
        AxisForm::Written(_) => false,
    }
}

fn leaf_kind(leaf: &Leaf) -> PatternKind
    ensures { result ≡ pattern.leaf_kind leaf.now }
{
    match leaf {
        Leaf::Step(form, _) => {
            if is_pattern_axis(*form) {
                PatternKind::Step
            } else {
                PatternKind::Other
            }
        }
        Leaf::Root => PatternKind::Path,
        _ => PatternKind::Other,
    }
}

fn when(holds: bool, kind: PatternKind) -> PatternKind
    ensures { result ≡ pattern.when holds kind }
{
    if holds { kind } else { PatternKind::Other }
}

fn node_kind(form: &Form, first: PatternKind, steps: bool, paths: bool) -> PatternKind
    ensures { result ≡ pattern.node_kind form.now first steps paths }
{
    match form {
        Form::Filter => when(matches!(first, PatternKind::Step), PatternKind::Step),
        Form::Chain(Production::Path) => when(steps, PatternKind::Path),
        Form::Chain(Production::Union) => when(paths, PatternKind::Union),
        _ => PatternKind::Other,
    }
}

fn first_of(first: Option<PatternKind>, kind: PatternKind) -> PatternKind
    ensures { result ≡ spec.first_of first kind }
{
    match first {
        None => kind,
        Some(first) => first,
    }
}

/// The value of an expression without parts.
pub fn leaf(leaf: Leaf) -> Value
    ensures { result ≡ spec.leaf_value leaf }
{
    let kind = leaf_kind(&leaf);
    let kept = Kept {
        expression: Expr::Leaf(leaf),
        level: 1,
    };
    Value {
        kept: Some(kept),
        kind,
    }
}

fn kept_with(
    parts: Option<KeptParts>,
    label: Label,
    value: Option<Kept>,
) -> Result<Option<KeptParts>, SyntaxFault>
    ensures { spec.Makes result (spec.kept_with parts label value) }
{
    match parts {
        None => {
            drop(label);
            drop(value);
            Ok(None)
        }
        Some(KeptParts { mut parts, deepest }) => match value {
            None => {
                drop(parts);
                drop(label);
                Ok(None)
            }
            Some(Kept { expression, level }) => match parts.push((label, expression)) {
                Ok(()) => {
                    let deepest = deepest.max(level);
                    Ok(Some(KeptParts { parts, deepest }))
                }
                Err(fault) => {
                    drop(parts);
                    Err(fault.into())
                }
            },
        },
    }
}

fn kept_node(form: Form, parts: Option<KeptParts>) -> Option<Kept>
    ensures { result ≡ spec.kept_node form parts }
{
    match parts {
        None => {
            drop(form);
            None
        }
        Some(KeptParts { parts, deepest }) => {
            if deepest < MOST_LEVELS {
                Some(Kept {
                    expression: Expr::Node(form, parts),
                    level: deepest + 1,
                })
            } else {
                drop(form);
                drop(parts);
                None
            }
        }
    }
}

impl Parts {
    pub fn nothing(alloc: Global) -> Parts
        ensures { result ≡ spec.no_parts }
    {
        let kept = KeptParts {
            parts: Many::new(alloc),
            deepest: 0,
        };
        Parts {
            kept: Some(kept),
            first: None,
            steps: true,
            paths: true,
        }
    }

    /// The parts, and one more behind the label.
    pub fn and_then(self, label: Label, value: Value) -> Result<Parts, SyntaxFault>
        ensures { spec.Makes result (spec.and_then self label value) }
    {
        let Parts {
            kept,
            first,
            steps,
            paths,
        } = self;
        let Value { kept: value, kind } = value;
        let bar = !matches!(label, Label::Link(Operator::Union));
        let step = matches!(kind, PatternKind::Step);
        let path = matches!(kind, PatternKind::Step | PatternKind::Path);
        let kept = kept_with(kept, label, value)?;
        let first = Some(first_of(first, kind));
        Ok(Parts {
            kept,
            first,
            steps: steps && step,
            paths: paths && (path && bar),
        })
    }

    /// The expression of the form that has these parts.
    pub fn node(self, form: Form) -> Value
        ensures { result ≡ spec.node_value form self }
    {
        let Parts {
            kept,
            first,
            steps,
            paths,
        } = self;
        let kind = node_kind(&form, first_of(first, PatternKind::Other), steps, paths);
        Value {
            kept: kept_node(form, kept),
            kind,
        }
    }
}
