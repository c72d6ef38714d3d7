//! Expressions as short texts, a form in braces and operators by names: `{1 Plus {2 Times 3}}`.

use std::alloc::AllocError;
use xpath_grammar::expr::{Expr, Form, Label, Leaf};
use xpath_grammar::many::Many;
use xpath_grammar::operators::Binder;
use xpath_grammar::step::{AxisForm, Test};
use xpath_tokens::token::{Name, Operator};

/// Puts texts behind a line.
pub(crate) fn push_texts(line: &mut String, texts: &[&str]) -> Result<(), AllocError> {
    'texts: for text in texts {
        line.push_str(text)?;
    }
    Ok(())
}

fn push_name(line: &mut String, name: &Name) -> Result<(), AllocError> {
    match name {
        Name::Plain(text) => line.push_str(text.as_str()),
        Name::Prefixed(prefix, local) => push_texts(line, &[prefix.as_str(), ":", local.as_str()]),
        Name::AnyLocal(prefix) => push_texts(line, &[prefix.as_str(), ":*"]),
        Name::AnyPrefix(local) => push_texts(line, &["*:", local.as_str()]),
    }
}

/// A name with what stands in front of it and behind it.
fn push_named(line: &mut String, front: &str, name: &Name, back: &str) -> Result<(), AllocError> {
    line.push_str(front)?;
    push_name(line, name)?;
    line.push_str(back)
}

/// A number, with its 18 digits behind the point unless all of them are 0.
pub(crate) fn push_number(line: &mut String, whole: u64, fraction: u64) -> Result<(), AllocError> {
    if fraction == 0 {
        write!(line, "{whole}")
    } else {
        write!(line, "{whole}.{fraction:018}")
    }
}

fn push_test(line: &mut String, test: &Test) -> Result<(), AllocError> {
    match test {
        Test::Name(name) => push_name(line, name),
        Test::Star => line.push_str("*"),
        Test::Kind(kind) => write!(line, "{kind:?}()"),
    }
}

fn push_axis(line: &mut String, form: AxisForm) -> Result<(), AllocError> {
    match form {
        AxisForm::Unwritten => Ok(()),
        AxisForm::At => line.push_str("@"),
        AxisForm::Written(axis) => write!(line, "{axis:?}::"),
    }
}

fn push_leaf(line: &mut String, leaf: &Leaf) -> Result<(), AllocError> {
    match leaf {
        Leaf::Literal(text) => push_texts(line, &["'", text.as_str(), "'"]),
        Leaf::Number(number) => push_number(line, number.whole(), number.fraction()),
        Leaf::Variable(name) => push_named(line, "$", name, ""),
        Leaf::Context => line.push_str("."),
        Leaf::Parent => line.push_str(".."),
        Leaf::Empty => line.push_str("()"),
        Leaf::Root => line.push_str("/"),
        Leaf::Called(name) => push_named(line, "", name, "()"),
        Leaf::Step(form, test) => {
            push_axis(line, *form)?;
            push_test(line, test)
        }
    }
}

fn push_signs(line: &mut String, signs: &Many<Operator>) -> Result<(), AllocError> {
    'signs: for sign in signs.as_slice() {
        write!(line, "{sign:?} ")?;
    }
    Ok(())
}

fn push_binder(line: &mut String, binder: Option<Binder>) -> Result<(), AllocError> {
    match binder {
        Some(binder) => write!(line, "{binder:?} "),
        None => line.push_str(", "),
    }
}

fn push_label(line: &mut String, label: &Label) -> Result<(), AllocError> {
    match label {
        Label::First => Ok(()),
        Label::Link(operator) => write!(line, " {operator:?} "),
        Label::Comma => line.push_str(", "),
        Label::Binding(binder, name) => {
            push_binder(line, *binder)?;
            push_named(line, "$", name, " In ")
        }
        Label::Condition => line.push_str("If "),
        Label::Then => line.push_str(" Then "),
        Label::Signed(signs) => push_signs(line, signs),
        Label::Predicate => line.push_str("["),
        Label::Again => line.push_str("]["),
        Label::Opened => line.push_str("("),
        Label::Calling(name) => push_named(line, "", name, "("),
    }
}

/// What stands behind the last part.
fn push_closing(line: &mut String, form: &Form) -> Result<(), AllocError> {
    match form {
        Form::Cast(word, name, optional) => {
            write!(line, " {word:?} ")?;
            push_named(line, "", name, if *optional { "?" } else { "" })
        }
        Form::Filter => line.push_str("]"),
        Form::Parentheses | Form::Call => line.push_str(")"),
        _ => Ok(()),
    }
}

/// The tree of an expression.
pub(crate) fn push_tree(line: &mut String, expression: &Expr) -> Result<(), AllocError> {
    match expression {
        Expr::Leaf(leaf) => push_leaf(line, leaf),
        Expr::Node(form, parts) => {
            line.push_str("{")?;
            'parts: for (label, part) in parts.as_slice() {
                push_label(line, label)?;
                push_tree(line, part)?;
            }
            push_closing(line, form)?;
            line.push_str("}")
        }
    }
}
